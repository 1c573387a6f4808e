//! Laws of the definitions.

ghost use Rattle.yt_run_laws.specs.KeepingValues.{HandlersKeepValues, SerialHandlingKeepsValues};
ghost use Rattle.yt_run_laws.specs.ReadableNames.{NamesAreReadable};
ghost use Rattle.yt_run_laws.specs.ReadingBack.{RunsReadBack};

/// Each well-formed graph has readable names: the labels of its ports are distinct words, and so are the names of its outputs.
pub fn names_are_readable()
    ensures { NamesAreReadable }
{}

/// Where a handler's text has numbers of 64 bits alone, so do the variables and messages that it makes of such numbers.
pub fn handlers_keep_values()
    ensures { HandlersKeepValues }
{}

/// In serial handling of a graph and a trace that have numbers of 64 bits alone, so do the variables and the output lines.
pub fn serial_handling_keeps_values()
    ensures { SerialHandlingKeepsValues }
{}

/// The text of each promised run whose lines have numbers of 64 bits alone is read back as its log and its lines; and so is that of each
/// promised run of a graph and a trace that have such numbers alone.
pub fn runs_read_back()
    ensures { RunsReadBack }
{}
