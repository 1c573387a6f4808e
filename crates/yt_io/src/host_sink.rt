//! The standard output as a sink. What it holds is not known.
ghost use Rattle.std.specs.Prelude.{◌≡◌, ◌≤◌, List, Option, ℕ, OnOk, OnErr, is_ok, if◌then◌else◌};
ghost use Rattle.yt_io.specs.Faults.{Rose, next};
ghost use Rattle.yt_io.specs.Sink.{add, AddsFront, unseen};

use crate::{Sink, SinkFault};
use std::io;
use std::marker::Model;

/// The standard output. It tells nothing of bytes, and a contract sees its count of faults.
#[derive(Drop)]
pub struct HostSink<'a, R: Print> {
    rt: &'a R,
    faults: u64,
}

impl<'a, R: Print> Model for HostSink<'a, R> {
    ghost Value = { ℕ };

    ghost view = { λ s. s.faults };
}

impl<'a, R: Print> HostSink<'a, R> {
    /// The sink with a count of 0. Takes no memory.
    pub fn new(rt: &'a R) -> Self
        ensures { result ≡ 0 }
    {
        HostSink { rt, faults: 0 }
    }

    /// The answer of a write that ended so. One that failed counts.
    fn counted(&mut self, wrote: io::Result<()>) -> Result<(), SinkFault>
        ensures answer { is_ok result ≡ is_ok wrote }
        ensures count { self.new ≡ (if is_ok wrote then self.old else next self.old) }
        ensures rises { self.old ≤ self.new }
    {
        match wrote {
            Ok(()) => Ok(()),
            Err(_) => {
                self.faults = self.faults.saturating_add(1);
                Err(SinkFault::Failed)
            }
        }
    }
}

impl<R: Print> Sink for HostSink<'_, R> {
    ghost faults = { λ count. count };

    ghost written = { λ _. unseen };

    fn write(&mut self, bytes: &[u8]) -> Result<(), SinkFault>
        ensures count { self.old ≤ self.new }
        ensures ok { OnOk result (unseen ≡ add unseen bytes.now) }
        ensures failed { OnErr result (Rose self.old self.new) }
        ensures front { OnErr result (AddsFront unseen unseen bytes.now) }

        // Each `Err` counts, and nothing else.
        ensures counted { self.new ≡ (if is_ok result then self.old else next self.old) }
    {
        let wrote = self.rt.write_all(bytes);
        self.counted(wrote)
    }
}
