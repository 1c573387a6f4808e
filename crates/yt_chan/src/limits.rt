//! The limits of channels, which definitions have in `specs/Limits`.

/// How many ports there are at most.
pub(crate) const MOST_PORTS: u32 = 64;

/// How many outputs there are at most.
pub(crate) const MOST_OUTPUTS: u32 = 16;

/// How many outs a port has at most.
pub(crate) const MOST_OUTS: u32 = 8;

/// How many numbers a message has at most.
pub(crate) const MOST_WIDTH: usize = 8;
