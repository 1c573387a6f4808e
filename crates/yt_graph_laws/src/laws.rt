//! Laws of the definitions.

ghost use Rattle.yt_graph_laws.specs.Blanks.{BlanksAreSpaceAndComments};
ghost use Rattle.yt_graph_laws.specs.Deciding.{FirstFaultIsFirst};
ghost use Rattle.yt_graph_laws.specs.NamesApart.{NamesAreApart};
ghost use Rattle.yt_graph_laws.specs.Places.{PlacesCountLines};
ghost use Rattle.yt_graph_laws.specs.Sends.{SendsHaveTheirWidth};
ghost use Rattle.yt_graph_laws.specs.Symbols.{SymbolsAreMarks, SymbolsAreOnlyMarks};

/// Each send of a port of a well-formed graph is on one of its outs, with as many values as that out is wide.
pub fn sends_have_their_width()
    ensures { SendsHaveTheirWidth }
{}

/// The labels of the ports of a well-formed graph differ, and so do the names of its outputs, and none has white space.
pub fn names_are_apart()
    ensures { NamesAreApart }
{}

/// The fault that decides of several is one of them that none of them comes before; none decides only where there is none.
pub fn first_fault_is_first()
    ensures { FirstFaultIsFirst }
{}

/// A place's line is one more than the line feeds before it, and its column one more than the bytes since the last of them.
pub fn places_count_lines()
    ensures { PlacesCountLines }
{}

/// What is passed over in front of a token is all white space and comments, each from `#` to its line feed or the text's end.
pub fn blanks_are_space_and_comments()
    ensures { BlanksAreSpaceAndComments }
{}

/// The longest mark of the grammar in front of a text is read whole, as one token.
pub fn symbols_are_marks()
    ensures { SymbolsAreMarks }
{}

/// Each symbol in front of a text is a mark of the grammar.
pub fn symbols_are_only_marks()
    ensures { SymbolsAreOnlyMarks }
{}
