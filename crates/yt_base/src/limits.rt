//! How long a text may be.

/// How many bytes a file that is read has at most.
pub const MOST_TEXT_BYTES: usize = 16_777_216;
