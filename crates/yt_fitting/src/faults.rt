//! The lines of faults of a file of lines.
ghost use Rattle.std.specs.Prelude.{◌≡◌, IfOk};
ghost use Rattle.yt_fitting.specs.FaultLines.{fault_end, fault_line, set_line};

use crate::kind::FileKind;
use std::alloc::{AllocError, Global};
use yt_base::Text;
use yt_set::LineFault;

/// The line about a line at fault: what kind of file it is in, its number, and what comes behind the number. `Err` comes where memory ran
/// out.
pub fn fault_line(
    alloc: Global,
    kind: FileKind,
    number: u32,
    end: &[u8],
) -> Result<Text, AllocError>
    ensures { IfOk result (λ line. line ≡ fault_line kind number end.now) }
{
    let mut line = Text::new(alloc);
    line.put(kind.word())?;
    line.put_field(u64::from(number))?;
    line.put(end)?;
    Ok(line)
}

/// The line of a fault of a set's text, by the number of the line at fault. `Err` comes where memory ran out.
pub(crate) fn set_line(alloc: Global, number: u32, fault: LineFault) -> Result<Text, AllocError>
    ensures { IfOk result (λ line. line ≡ set_line number fault) }
{
    fault_line(alloc, FileKind::Set, number, fault_end(fault))
}

/// What is wrong with a line of a set, behind its number.
fn fault_end(fault: LineFault) -> &'static [u8]
    ensures { result.now ≡ fault_end fault }
{
    match fault {
        LineFault::Form => b" form\n",
        LineFault::Name => b" name\n",
        LineFault::Twice => b" twice\n",
        LineFault::Cost => b" cost\n",
        LineFault::Period => b" period\n",
        LineFault::Many => b" many\n",
    }
}
