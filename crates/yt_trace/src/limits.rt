//! The limits of traces, which definitions have in `specs/Limits`.

/// The last tick at which a message of a trace may come.
pub const MOST_TIME: u64 = 4_000_000;

/// How many messages a trace has at most.
pub const MOST_MESSAGES: usize = 200_000;
