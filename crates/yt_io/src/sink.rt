//! A place that bytes are written to.
ghost use Rattle.std.specs.Prelude.{◌≡◌, ◌≤◌, List, Option, ℕ, take, OnOk, OnErr};
ghost use Rattle.yt_io.specs.Faults.{Rose};
ghost use Rattle.yt_io.specs.Sink.{add, AddsFront};

use thiserror::Error;

/// Why a write failed.
#[derive(Clone, Copy, Debug, PartialEq, Eq, Error)]
pub enum SinkFault {
    /// Not all of the bytes were written. The sink counts it.
    #[error("the bytes could not be written")]
    Failed,
}

/// A place that bytes are written to, one write behind another. It counts its faults, and may tell the bytes.
pub trait Sink {
    /// How often a write has failed. It never falls, and may stand still at 2^64 - 1.
    ghost faults: { Self → ℕ };

    /// The bytes that were written, where the sink tells it.
    ghost written: { Self → Option (List ℕ) };

    /// Writes all the bytes, or fails and has written some of them from the front. Takes no memory.
    ///
    /// `Failed` comes only where the count of faults rose in this call.
    fn write(&mut self, bytes: &[u8]) -> Result<(), SinkFault>
        ensures count { faults self.old ≤ faults self.new }
        ensures ok { OnOk result (written self.new ≡ add (written self.old) bytes.now) }
        ensures failed { OnErr result (Rose (faults self.old) (faults self.new)) }
        ensures front { OnErr result (AddsFront (written self.old) (written self.new) bytes.now) };
}
