//! Messages that come from outside.

use yt_list::Vals;

/// A message of an input.
#[derive(Debug, Drop)]
pub struct Message {
    /// When it comes, in ticks.
    pub time: u64,
    /// The number of its input, from 1.
    pub input: u32,
    /// Its numbers.
    pub values: Vals,
}
