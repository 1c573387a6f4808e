//! Reads the text of a set.
ghost use Rattle.std.specs.Prelude.{◌≡◌, ◌<◌, ◌^◌, length, Ok, IfOk, IfErr};
ghost use Rattle.yt_set.specs.Inside.Reading.{fault_of};
ghost use Rattle.yt_set.specs.SetText.{IsFaultOf, set_of};
ghost use Rattle.yt_set.specs.declared.read.SetFault.TheVariants.{Memory};

use crate::named::NamedSet;
use crate::reader::Reader;
use std::alloc::{AllocError, Global};
use yt_base::{FileError, read_lines};

/// What is wrong with a line of a set's text. Of several faults the first in this order counts.
#[derive(Clone, Copy, Debug, PartialEq, Eq, Drop)]
pub enum LineFault {
    /// The line has another number of fields than four or five, another first word than `task`, or a cost or a period that
    /// isn't digits.
    Form,
    /// The name of the task or of its resource isn't 1 to 65 ASCII letters, digits, `_` and `.`.
    Name,
    /// An earlier line has the task's name.
    Twice,
    /// The cost isn't from 1 to 1,000,000 ticks.
    Cost,
    /// The period isn't from 1 to 1,000,000 ticks.
    Period,
    /// There are 64 tasks before this one.
    Many,
}

/// Why a text is no set.
#[derive(Debug, Drop)]
pub enum SetFault {
    /// The first line at fault, by its number from 1, and its first fault.
    Line(u32, LineFault),
    /// Memory ran out.
    Memory,
}

impl From<AllocError> for SetFault {
    ghost from_gives = { λ _ e. e ≡ Memory };

    fn from(_error: AllocError) -> Self {
        SetFault::Memory
    }
}

impl From<FileError<LineFault>> for SetFault {
    ghost from_gives = { λ error fault. fault ≡ fault_of error };

    fn from(error: FileError<LineFault>) -> Self {
        match error {
            FileError::Line(number, fault) => SetFault::Line(number, fault),
            FileError::Memory => SetFault::Memory,
        }
    }
}

/// The set that a text says, line by line `task NAME COST PERIOD` or `task NAME COST PERIOD RESOURCE`, or its first line at
/// fault and that line's first fault.
///
/// Lines without fields are skipped but counted, as are those whose first field begins with `#`. Resources are numbered
/// by first use, from 1. The caller shows that the text is shorter than 2^32 bytes. Takes time linear in the text.
pub fn read_set(alloc: Global, text: &[u8]) -> Result<NamedSet, SetFault>
    requires { length text.now < 2 ^ 32 }
    ensures ok { IfOk result (λ named. set_of text.now ≡ Ok named) }
    ensures err { IfErr result (λ fault. IsFaultOf text.now fault) }
{
    let reader = read_lines(Reader::new(alloc), text)?;
    Ok(reader.finish(alloc)?)
}
