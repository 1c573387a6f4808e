//! What a target has.
ghost use Rattle.std.specs.Prelude.{◌≡◌, ◌+◌, ◌≤◌, ◌^◌, ◌<◌, [], length, true, false};
ghost use Rattle.yt_chan.specs.Limits.{most_width};
ghost use Rattle.yt_chan.specs.Inside.Sound.{no_inbox};

use crate::message::Message;

/// A port or an output: the place of the wire that feeds it, the number of wires where none does; how many of the wire's messages
/// were placed here; and the last placed message, where one was placed.
#[derive(Drop)]
pub(crate) struct Inbox {
    pub(crate) wire: usize,
    pub(crate) next: u64,
    pub(crate) filled: bool,
    pub(crate) values: Message,
}

impl Inbox {
    /// A target that is fed by the wire at place `wire`, with no message.
    pub(crate) fn new(wire: usize) -> Self
        ensures { result ≡ no_inbox wire }
    {
        Inbox {
            wire,
            next: 0,
            filled: false,
            values: Message::new(),
        }
    }

    /// Places a message here.
    pub(crate) fn put(&mut self, values: &[i64])
        requires { length values.now ≤ most_width }
        ensures { self.new ≡ record self.old { filled = true; values = values.now } }
    {
        self.values.set(values);
        self.filled = true;
    }
}
