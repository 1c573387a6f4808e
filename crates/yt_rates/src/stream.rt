//! Messages that come one after the other.

/// Messages that come to a port, or that an out passes on.
#[derive(Clone, Copy, Debug, Default, PartialEq, Eq)]
pub struct Stream {
    /// The least time between two of them, in ticks.
    pub period: u64,
    /// The longest logical time, in ticks, from an input's message to one of these that comes of it.
    pub start: u64,
}
