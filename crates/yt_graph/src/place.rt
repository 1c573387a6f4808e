//! Places in a text.

/// A place in a text: the line and the column, both counted from 1, the column in bytes. A place is less than another
/// where it stands before it.
#[derive(Clone, Copy, Debug, PartialEq, Eq, PartialOrd, Ord)]
pub struct Place {
    /// The line, from 1.
    pub line: u32,
    /// The byte in the line, from 1.
    pub col: u32,
}
