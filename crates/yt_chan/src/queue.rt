//! A wire's messages, in two banks: one waits while the other fills.
ghost use Rattle.std.specs.Prelude.{◌≡◌, ◌+◌, ◌<◌, ◌≤◌, ◌^◌, [], length, slice_index_or, false, Bool, IfOk};
ghost use Rattle.yt_chan.specs.Limits.{most_base, most_gap, most_sends, most_width};
ghost use Rattle.yt_chan.specs.Inside.Banks.{no_batch};
ghost use Rattle.yt_chan.specs.Inside.Queues.{closed_by, count, message_at, no_queue, sent, time_at};

use crate::bank::Bank;
use std::alloc::{AllocError, Global};
use std::mem;

/// Two banks of a wire's messages. Those of the older bank wait, or every target has them. The newer bank waits too where it is
/// closed, else it fills. `first` messages of the wire came before those in the banks.
#[derive(Drop)]
pub(crate) struct WireQueue {
    pub(crate) older: Bank,
    pub(crate) newer: Bank,
    pub(crate) closed: bool,
    pub(crate) first: u64,
}

impl WireQueue {
    /// No messages, and room for `sends` in each bank. All memory is taken here; `Err` comes where it ran out.
    pub(crate) fn with_room(alloc: Global, sends: u32) -> Result<Self, AllocError>
        ensures { IfOk result (λ queue. queue ≡ record no_queue { older = record no_batch { room = sends }; newer = record no_batch { room = sends } }) }
    {
        Ok(WireQueue {
            older: Bank::with_room(alloc, sends as usize)?,
            newer: Bank::with_room(alloc, sends as usize)?,
            closed: false,
            first: 0,
        })
    }

    /// Adds a message to those of the job that sends now. The caller shows that there is room, and that every target has the
    /// messages of the older bank where the newer one waits.
    #[tactic(auto, unfolding(crate::specs::Inside::Queues::sent))]
    pub(crate) fn send(&mut self, values: &[i64])
        requires few { length values.now ≤ most_width }
        requires counted { self.old.first + length self.old.older.messages < 2 ^ 64 }
        requires fresh { 0 < self.old.older.room }
        requires room { self.old.closed ≡ false → length self.old.newer.messages < self.old.newer.room }
        ensures { self.new ≡ sent values.now self.old }
    {
        if self.closed {
            self.first += self.older.len() as u64;
            mem::swap(&mut self.older, &mut self.newer);
            self.newer.clear();
            self.closed = false;
        }
        self.newer.push(values);
    }

    /// Closes the job that sends now: its messages wait where it passes them on, the first of them until tick `base`; else they are
    /// dropped. Where the newer bank is closed already, the job sent nothing, and what waits stays as it is.
    #[tactic(auto, unfolding(crate::specs::Inside::Queues::closed_by))]
    pub(crate) fn close(&mut self, passes: bool, number: u32, base: u64)
        ensures { self.new ≡ closed_by passes number base self.old }
    {
        if self.closed {
            return;
        }
        if !passes {
            self.newer.clear();
        } else if self.newer.len() > 0 {
            self.newer.stamp(number, base);
            self.closed = true;
        }
    }

    /// How many messages wait, or did until every target had them.
    #[tactic(auto, unfolding(crate::specs::Inside::Queues::count))]
    pub(crate) fn count(&self) -> usize
        requires { (length self.now.older.messages ≤ most_sends) × (length self.now.newer.messages ≤ most_sends) }
        ensures { result ≡ count self.now }
    {
        if self.closed {
            self.older.len() + self.newer.len()
        } else {
            self.older.len()
        }
    }

    /// The tick at which the message at place `n`, counted from 0, is due. The caller shows that it is below 2^64.
    #[tactic(auto, unfolding(crate::specs::Inside::Queues::time_at))]
    pub(crate) fn time(&self, n: usize, gap: u64) -> u64
        requires bases { (self.now.older.base ≤ most_base) × (self.now.newer.base ≤ most_base) }
        requires few { (length self.now.older.messages ≤ most_sends) × (n < most_sends + length self.now.older.messages) }
        requires gap { gap ≤ most_gap }
        ensures { result ≡ time_at gap self.now n }
    {
        let older = self.older.len();
        if n < older {
            self.older.time(n, gap)
        } else {
            self.newer.time(n - older, gap)
        }
    }

    /// The numbers of the message at place `n`, counted from 0. The caller shows that there is one.
    #[tactic(auto, unfolding(crate::specs::Inside::Queues::message_at))]
    pub(crate) fn values(&self, n: usize) -> &[i64]
        requires { n < length self.now.older.messages + length self.now.newer.messages }
        ensures value { result.now ≡ message_at self.now n }
        ensures few { length result.now ≤ most_width }
    {
        let older = self.older.len();
        if n < older {
            self.older.values(n)
        } else {
            self.newer.values(n - older)
        }
    }
}
