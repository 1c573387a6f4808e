//! How a file of lines is read.
ghost use Rattle.std.specs.Prelude.{◌≡◌, ◌<◌, ◌^◌, List, ℕ, length, Result, Ok, IfOk, IfErr};
ghost use Rattle.yt_base.specs.Lines.{fields_of};
ghost use Rattle.yt_base.specs.Files.{IsLineError, IsFileError, read_lines};

use crate::file_error::{FileError, LineError};
use crate::lines::{Lines, is_skipped};

/// What reads a file line by line. It stands for what the lines so far say.
pub trait LineReader<'a> {
    /// What may be wrong with a line.
    type Fault;

    // What was read with a line of these fields, or the line's first fault.
    ghost judged: { Self → List (List ℕ) → Result Self Self.Fault };

    /// Reads a line that isn't skipped, without its line feed.
    fn read_line(self, line: &'a [u8]) -> Result<Self, LineError<Self::Fault>>
        ensures ok { IfOk result (λ read. judged self (fields_of line.now) ≡ Ok read) }
        ensures err { IfErr result (λ error. IsLineError (judged self (fields_of line.now)) error) };
}

/// What a reader has read once it has judged all lines of a text, or the first line at fault and that line's first fault.
///
/// Lines without fields are skipped but counted, as are those whose first field begins with `#`. The caller shows that the text is
/// shorter than 2^32 bytes, so that each line has a number. Takes as many steps as there are lines.
pub fn read_lines<'a, R: LineReader<'a> + Drop>(
    reader: R,
    text: &'a [u8],
) -> Result<R, FileError<R::Fault>>
    requires { length text.now < 2 ^ 32 }
    ensures ok { IfOk result (λ read. read_lines R.judged reader text.now ≡ Ok read) }
    ensures err { IfErr result (λ error. IsFileError (read_lines R.judged reader text.now) error) }
{
    let mut lines = Lines::new(text);
    let mut reader = reader;
    let mut number = 0;
    while let Some(line) = lines.next() {
        number += 1;
        if !is_skipped(line) {
            reader = match reader.read_line(line) {
                Ok(read) => read,
                Err(error) => return Err(error.at(number)),
            };
        }
    }
    Ok(reader)
}
