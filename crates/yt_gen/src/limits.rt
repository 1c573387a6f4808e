//! How much is made.

/// How many pipelines a graph has at most.
pub const MOST_PIPELINES: u32 = 16;

/// How many messages a trace has for each input.
pub(crate) const MESSAGES: u32 = 400;
