//! Limits of runs.

/// The most jobs and output lines that a run may come to (see `yt_bound`).
pub const MOST_JOBS_AND_LINES: u64 = 1_000_000;
