//! Messages in order of time.
ghost use Rattle.std.specs.Prelude.{◌≡◌, ◌<◌, ◌≤◌, [], ◌∷◌, ◌++◌, length, OnOk, OnErr};
ghost use Rattle.yt_trace.specs.Limits.{most_time, most_trace};
ghost use Rattle.yt_trace.specs.Traces.{IsTrace, latest_time};

use crate::message::Message;
use std::alloc::{AllocError, Global};
use std::marker::Model;
use yt_list::Items;

/// Messages in order of time, at most 200,000, none after tick 4,000,000. A contract sees the list of them.
#[derive(Debug, Drop)]
pub struct Trace {
    messages: Items<Message>,
}

impl Model for Trace {
    ghost use Rattle.std.specs.Prelude.{List};
    ghost use Rattle.yt_trace.specs.declared.message.Message.{Message};
    ghost use Rattle.yt_trace.specs.Traces.{IsTrace};

    ghost Value = { List Message };

    ghost view = { λ t. t.messages };

    ghost invariant = { λ t. IsTrace t.messages };
}

impl Trace {
    /// The trace with no message. Takes no memory until the first `push`.
    pub fn new(alloc: Global) -> Self
        ensures { result ≡ [] }
    {
        Trace {
            messages: Items::new(alloc),
        }
    }

    /// Takes over messages that are a trace, with no memory.
    pub fn from_items(messages: Items<Message>) -> Self
        requires { IsTrace messages }
        ensures { result ≡ messages }
    {
        Trace { messages }
    }

    /// Adds a message at the end. The caller shows that there is room for it, that it comes by tick 4,000,000, and that it comes no
    /// earlier than the last one. `Err` comes where memory ran out; the trace is then as before.
    pub fn push(&mut self, message: Message) -> Result<(), AllocError>
        requires room { length self.old < most_trace }
        requires in_time { message.time ≤ most_time }
        requires order { latest_time self.old ≤ message.time }
        ensures ok { OnOk result (self.new ≡ self.old ++ message ∷ []) }
        ensures err { OnErr result (self.new ≡ self.old) }
    {
        Ok(self.messages.push(message)?)
    }

    /// The time of the last message, 0 where there is none.
    pub fn latest_time(&self) -> u64
        ensures { result ≡ latest_time self.now }
    {
        match self.messages.as_slice().last() {
            Some(message) => message.time,
            None => 0,
        }
    }

    /// How many messages there are. Whatever the trace, it is in order and within its limits.
    pub fn len(&self) -> usize
        ensures len { result ≡ length self.now }
        ensures is_trace { IsTrace self.now }
    {
        self.messages.len()
    }

    /// All messages in order, as a slice to go over.
    pub fn messages(&self) -> &[Message]
        ensures messages { result.now ≡ self.now }
        ensures is_trace { IsTrace self.now }
    {
        self.messages.as_slice()
    }
}
