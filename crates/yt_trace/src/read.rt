//! Reads the text of a trace.
ghost use Rattle.std.specs.Prelude.{◌≡◌, ◌<◌, ◌^◌, length, Ok, IfOk, IfErr};
ghost use Rattle.yt_graph.specs.Picture.{graph_tree};
ghost use Rattle.yt_graph.specs.WellFormed.{IsWellFormed};
ghost use Rattle.yt_trace.specs.Traces.{KeepsPeriods};
ghost use Rattle.yt_trace.specs.TraceText.{IsFaultOf, fault_of, trace_of};
ghost use Rattle.yt_trace.specs.declared.read.TraceFault.TheVariants.{Memory};

use crate::message_fault::MessageFault;
use crate::reader::Reader;
use crate::trace::Trace;
use std::alloc::{AllocError, Global};
use yt_base::{FileError, read_lines};
use yt_graph::Graph;

/// Why a text is no trace of a graph: the first line at fault, by its number from 1, and its first fault in this order.
#[derive(Clone, Copy, Debug, PartialEq, Eq, Drop)]
pub enum TraceFault {
    /// The line has fewer than two fields, a time that isn't digits, or a value that isn't an optional `-` and digits, of a number
    /// that fits 64 bits with a sign.
    Form(u32),
    /// No input has this name.
    Unknown(u32),
    /// The line has another number of values than each message of the input.
    Width(u32),
    /// The message comes after tick 4,000,000.
    Late(u32),
    /// The message comes before the one of the line before.
    Order(u32),
    /// The message comes within a period of its input's last one. `least` is the least tick at which it may.
    Soon { line: u32, least: u64 },
    /// There are 200,000 messages before this one.
    Many(u32),
    /// Memory ran out.
    Memory,
}

impl From<AllocError> for TraceFault {
    ghost from_gives = { λ _ e. e ≡ Memory };

    fn from(_error: AllocError) -> Self {
        TraceFault::Memory
    }
}

impl TraceFault {
    /// Why a file of lines is no trace.
    fn new(error: FileError<MessageFault>) -> Self
        ensures { result ≡ fault_of error }
    {
        match error {
            FileError::Memory => TraceFault::Memory,
            FileError::Line(line, fault) => match fault {
                MessageFault::Form => TraceFault::Form(line),
                MessageFault::Unknown => TraceFault::Unknown(line),
                MessageFault::Width => TraceFault::Width(line),
                MessageFault::Late => TraceFault::Late(line),
                MessageFault::Order => TraceFault::Order(line),
                MessageFault::Soon(least) => TraceFault::Soon { line, least },
                MessageFault::Many => TraceFault::Many(line),
            },
        }
    }
}

/// The trace that a text says of a graph, line by line `TIME INPUT VALUE ..`, or its first line at fault and that line's first fault.
/// The trace keeps the graph's periods.
///
/// Lines without fields are skipped but counted, as are those whose first field begins with `#`. The caller shows that the graph is
/// well formed, and that the text is shorter than 2^32 bytes. Takes time linear in the text.
pub fn read_trace(alloc: Global, graph: &Graph, text: &[u8]) -> Result<Trace, TraceFault>
    requires well_formed { IsWellFormed (graph_tree graph.now) }
    requires short { length text.now < 2 ^ 32 }
    ensures ok { IfOk result (λ trace. trace_of (graph_tree graph.now) text.now ≡ Ok trace) }
    ensures keeps { IfOk result (λ trace. KeepsPeriods (graph_tree graph.now) trace) }
    ensures err { IfErr result (λ fault. IsFaultOf (graph_tree graph.now) text.now fault) }
{
    let reader = Reader::new(alloc, graph.inputs.as_slice())?;
    match read_lines(reader, text) {
        Ok(reader) => Ok(reader.finish()),
        Err(error) => Err(TraceFault::new(error)),
    }
}
