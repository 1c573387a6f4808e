//! The text of a set: the set that it says, or the answer to its first fault.
ghost use Rattle.std.specs.Prelude.{◌<◌, ◌^◌, IfOk, length};
ghost use Rattle.yt_fitting.specs.Sets.{IsSetReadingOf};

use crate::faults::set_line;
use std::alloc::{AllocError, Global};
use yt_answer::Answer;
use yt_set::{NamedSet, SetFault, read_set};

/// What the text of a set is read as.
#[derive(Drop)]
pub enum SetReading {
    /// The set.
    Set(NamedSet),
    /// The answer to a text whose first line at fault it tells.
    Refused(Answer),
}

/// Reads the text of a set, which the caller shows to be shorter than 2^32 bytes. `Err` comes where memory ran out.
pub fn read_named_set(alloc: Global, text: &[u8]) -> Result<SetReading, AllocError>
    requires { length text.now < 2 ^ 32 }
    ensures { IfOk result (λ reading. IsSetReadingOf text.now reading) }
{
    match read_set(alloc, text) {
        Ok(named) => Ok(SetReading::Set(named)),
        Err(SetFault::Line(number, fault)) => Ok(SetReading::Refused(Answer::refused(set_line(
            alloc, number, fault,
        )?))),
        Err(SetFault::Memory) => Err(AllocError),
    }
}
