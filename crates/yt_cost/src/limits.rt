//! The limits of handlers, as numbers of the code. `yt_graph` has the same in `specs/Limits.antt`, but for the sends.

/// The most ticks that a handling may take.
pub const MOST_TICKS: u64 = 1_000_000;

/// The most messages that a handling may send on an out. Definitions cite it too.
pub const MOST_SENDS: u32 = 64;
