//! A sink in memory, for tests.
ghost use Rattle.std.specs.Prelude.{◌≡◌, ◌<◌, ◌≤◌, List, Option, Some, [], ℕ, length, take, vec_len, vec_capacity, IfOk, OnOk, OnErr, ◌+◌, ◌++◌};
ghost use Rattle.yt_io.specs.Faults.{Rose};
ghost use Rattle.yt_io.specs.Sink.{add, AddsFront};
ghost use Rattle.yt_io.specs.MemSink.{after_write, answer_of, kept_of};

use crate::{Sink, SinkFault};
use std::alloc::{AllocError, Global};
use std::marker::Model;

/// Bytes in memory, of which certain writes fail. It tells the bytes. Its number of writes and its count of faults stay at
/// 2^64 - 1 once they are there.
#[derive(Drop)]
pub struct MemSink {
    bytes: Vec<u8>,
    room: usize,
    fails: Vec<(u64, usize)>,
    writes: u64,
    faults: u64,
}

impl Model for MemSink {
    ghost use Rattle.std.specs.Prelude.{◌≤◌, vec_len, vec_capacity};
    ghost use Rattle.yt_io.specs.MemSink.{Sunk};

    ghost Value = { Sunk };

    ghost view = { λ s. record { bytes = s.bytes.items; room = s.room; fails = s.fails.items; writes = s.writes; faults = s.faults } };

    ghost invariant = { λ s. (vec_len s.bytes ≤ s.room) × (s.room ≤ vec_capacity s.bytes) };
}

impl MemSink {
    /// A sink with room for so many bytes. The first pair `(n, kept)` of a number n makes the n-th write fail, counted from 1,
    /// with `kept` bytes kept at most. Every other write fails only where it doesn't fit, and then keeps what fits. All
    /// memory is taken here; `Err` comes where it ran out.
    pub fn with_room(
        alloc: Global,
        room: usize,
        fails: Vec<(u64, usize)>,
    ) -> Result<MemSink, AllocError>
        ensures { IfOk result (λ s. s ≡ record { bytes = []; room = room; fails = fails.items; writes = 0; faults = 0 }) }
    {
        let bytes = Vec::with_capacity(alloc, room)?;
        Ok(MemSink {
            bytes,
            room,
            fails,
            writes: 0,
            faults: 0,
        })
    }

    /// The bytes that were written.
    pub fn bytes(&self) -> &[u8]
        ensures { result.now ≡ self.now.bytes }
    {
        &self.bytes
    }
}

impl Sink for MemSink {
    ghost faults = { λ s. s.faults };

    ghost written = { λ s. Some s.bytes };

    fn write(&mut self, bytes: &[u8]) -> Result<(), SinkFault>
        ensures count { self.old.faults ≤ self.new.faults }
        ensures ok { OnOk result (Some self.new.bytes ≡ add (Some self.old.bytes) bytes.now) }
        ensures failed { OnErr result (Rose self.old.faults self.new.faults) }
        ensures front { OnErr result (AddsFront (Some self.old.bytes) (Some self.new.bytes) bytes.now) }

        // Which writes succeed, and what each leaves.
        ensures whole { result ≡ answer_of self.old bytes.now }
        ensures state { self.new ≡ after_write self.old bytes.now }
    {
        self.writes = self.writes.saturating_add(1);
        let spare = self.room - self.bytes.len();
        let planned = kept(&self.fails, self.writes);
        let fits = bytes.len().min(spare);
        let take = match planned {
            Some(kept) => fits.min(kept),
            None => fits,
        };
        // There is room, so this takes no memory and does not fail.
        let _ = self.bytes.extend_from_slice(&bytes[..take]);
        if planned.is_some() || fits < bytes.len() {
            self.faults = self.faults.saturating_add(1);
            return Err(SinkFault::Failed);
        }
        Ok(())
    }
}

/// How many bytes this write keeps, where it is one of those that fail.
fn kept(fails: &[(u64, usize)], write: u64) -> Option<usize>
    ensures { result ≡ kept_of fails.now write }
{
    for (n, kept) in fails {
        if *n == write {
            return Some(*kept);
        }
    }
    None
}
