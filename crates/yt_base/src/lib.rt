//! Text: a line of at most 256 bytes, a text of any length, the lines and fields of a text, and numbers in decimal digits.
//!
//! A file of lines is judged line by line: those that say nothing are skipped, and the first line at fault decides
//! (`read_lines` in `specs/Files.antt`). [`read_lines`] gives the lines to a [`LineReader`] of the caller's; [`Lines`], [`is_skipped`] and
//! [`Fields`] take a text apart.
//!
//! Only a [`Text`] takes memory, and nothing here knows what a line is about. The contracts name the exact bytes that are put, and the exact
//! places and values that are found.
#![tactic(auto)]

mod file_error;
mod limits;
mod line;
mod line_reader;
mod lines;
mod numbers;
mod span;
mod text;

pub use file_error::{FileError, LineError};
pub use limits::MOST_TEXT_BYTES;
pub use line::Line;
pub use line_reader::{LineReader, read_lines};
pub use lines::{Fields, Lines, is_skipped};
pub use numbers::{Decimal, digits, signed};
pub use span::{Span, next_field, next_line};
pub use text::Text;
