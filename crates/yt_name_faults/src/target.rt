//! What paths lead to.

use yt_graph::Num;

/// What a path leads to.
#[derive(Clone, Copy)]
pub struct Target {
    /// The number of the port, from 0.
    pub port: usize,
    /// The place of the out, from 0.
    pub out: usize,
    /// How many numbers each of the out's messages has.
    pub width: Num,
}
