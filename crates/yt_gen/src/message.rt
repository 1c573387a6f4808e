//! Messages of the trace.
ghost use Rattle.std.specs.Prelude.{◌≡◌};
ghost use Rattle.yt_gen.specs.TraceText.{message_of};

use crate::pipeline::period;

/// A message of the trace.
#[derive(Clone, Copy)]
pub(crate) struct Message {
    /// The tick at which it comes.
    pub time: u64,
    /// The number of its input, from 1.
    pub input: u32,
    /// Its value.
    pub value: u64,
}

impl Message {
    /// The message of an input, by its number from 1, that so many messages of it come before.
    pub(crate) fn new(input: u32, before: u32) -> Self
        ensures { result ≡ message_of input before }
    {
        let number = u64::from(input);
        let before = u64::from(before);
        Message {
            time: 13 * number + before * (period(input) + number % 5),
            input,
            value: (31 * number + 17 * before) % 1000,
        }
    }
}
