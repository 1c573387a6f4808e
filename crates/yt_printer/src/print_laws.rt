//! Laws of the canonical text.

ghost use Rattle.yt_grammar.specs.SamePlaces.{PrintedIsRead};

/// The canonical text of each tree that some tokens spell has no fault, and its tokens spell the same tree but for places.
pub fn printed_is_read()
    ensures { PrintedIsRead }
{}
