//! Messages that outputs show.

use yt_list::{Items, Vals};

/// A message at an output of the graph: when it is shown, in ticks, the number of the output, from 1, and its numbers.
#[derive(Debug, Drop)]
pub struct OutLine {
    pub time: u64,
    pub output: u32,
    pub values: Vals,
}

/// Messages at outputs, in order of time and then of output.
pub type Outs = Items<OutLine>;
