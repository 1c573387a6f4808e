//! The lines that refuse a trace.
ghost use Rattle.std.specs.Prelude.{◌≡◌, [], ◌∷◌, ◌++◌, IfOk, codes, decimal};
ghost use Rattle.yt_cmd_run.specs.Lines.{IsTraceLine, jobs_line, trace_line};

use std::alloc::{AllocError, Global};
use yt_base::Text;
use yt_trace::TraceFault;

/// The line of a fault of a trace's text. `Err` comes where memory ran out, as `Memory` says.
pub(crate) fn trace_line(alloc: Global, fault: TraceFault) -> Result<Text, AllocError>
    ensures { IfOk result (λ line. IsTraceLine line fault) }
{
    match fault {
        TraceFault::Form(line) => fault_line(alloc, line, b" form\n"),
        TraceFault::Unknown(line) => fault_line(alloc, line, b" unknown\n"),
        TraceFault::Width(line) => fault_line(alloc, line, b" width\n"),
        TraceFault::Late(line) => fault_line(alloc, line, b" late\n"),
        TraceFault::Order(line) => fault_line(alloc, line, b" order\n"),
        TraceFault::Soon { line, least } => soon_line(alloc, line, least),
        TraceFault::Many(line) => fault_line(alloc, line, b" many\n"),
        TraceFault::Memory => Err(AllocError),
    }
}

/// The line about a line at fault, by its number and what comes behind it.
fn fault_line(alloc: Global, number: u32, end: &[u8]) -> Result<Text, AllocError>
    ensures { IfOk result (λ line. line ≡ trace_line number end.now) }
{
    let mut line = Text::new(alloc);
    line.put(b"trace")?;
    line.put_field(u64::from(number))?;
    line.put(end)?;
    Ok(line)
}

/// The line about a message that comes too soon, by the least tick at which it may.
fn soon_line(alloc: Global, number: u32, least: u64) -> Result<Text, AllocError>
    ensures { IfOk result (λ line. line ≡ trace_line number (codes " soon " ++ (decimal least ++ 10 ∷ []))) }
{
    let mut line = fault_line(alloc, number, b" soon ")?;
    line.put_u64(least)?;
    line.put(b"\n")?;
    Ok(line)
}

/// The line about a trace of which a run comes to too many jobs and lines, by their bound. `Err` comes where memory ran out.
pub(crate) fn jobs_line(alloc: Global, bound: u64) -> Result<Text, AllocError>
    ensures { IfOk result (λ line. line ≡ jobs_line bound) }
{
    let mut line = Text::new(alloc);
    line.put(b"trace jobs")?;
    line.put_field(bound)?;
    line.put(b"\n")?;
    Ok(line)
}
