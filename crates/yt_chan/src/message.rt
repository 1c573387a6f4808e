//! The numbers of one message.
ghost use Rattle.std.specs.Prelude.{◌≡◌, ◌≤◌, [], length};
ghost use Rattle.yt_chan.specs.Limits.{most_width};

use crate::limits::MOST_WIDTH;
use std::marker::Model;

/// The numbers of a message, at most 8. A contract sees the list of them.
#[derive(Drop)]
pub(crate) struct Message {
    numbers: [i64; MOST_WIDTH],
    len: usize,
}

impl Model for Message {
    ghost use Rattle.std.specs.Prelude.{ℤ, List, ◌≤◌, take};
    ghost use Rattle.yt_chan.specs.Limits.{most_width};

    ghost Value = { List ℤ };

    ghost view = { λ p. take p.len p.numbers };

    ghost invariant = { λ p. p.len ≤ most_width };
}

impl Message {
    /// No numbers.
    pub(crate) fn new() -> Self
        ensures { result ≡ [] }
    {
        Message {
            numbers: [0; MOST_WIDTH],
            len: 0,
        }
    }

    /// Takes over these numbers in place of its own.
    pub(crate) fn set(&mut self, values: &[i64])
        requires { length values.now ≤ most_width }
        ensures { self.new ≡ values.now }
    {
        self.len = values.len();
        self.numbers[..values.len()].copy_from_slice(values);
    }

    /// The numbers.
    pub(crate) fn as_slice(&self) -> &[i64]
        ensures value { result.now ≡ self.now }
        ensures few { length self.now ≤ most_width }
    {
        &self.numbers[..self.len]
    }
}
