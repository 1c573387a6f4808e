//! The limit of a table.

/// How many operators a table has at most.
pub const MOST_OPS: usize = 32;
