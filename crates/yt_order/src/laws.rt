//! What the definitions mean, as laws.
ghost use Rattle.yt_order.specs.Laws.{WordsAreOrdered};
ghost use Rattle.yt_order.specs.Sorting.{SortingSorts, TwoNumbersCompare};

/// The order of words is strict, and of two different words one comes before the other.
pub fn words_are_ordered()
    ensures { WordsAreOrdered }
{}

/// Putting a list in order, by any test in which any two things compare, gives the same things, none of which stands before the one
/// in front of it; those of which neither stands before the other keep their order. Of things of any type.
pub fn sorting_sorts<T>()
    ensures { SortingSorts T }
{}

/// A test by two numbers of things, of which the first decides where it differs, is one in which any two compare. Of things of any
/// type.
pub fn two_numbers_compare<T>()
    ensures { TwoNumbersCompare T }
{}
