//! The writing of lines.
ghost use Rattle.std.specs.Prelude.{◌≡◌, ◌≤◌, OnOk, OnErr};
ghost use Rattle.yt_answer.specs.Code.{status_of};
ghost use Rattle.yt_io.specs.Faults.{Rose};
ghost use Rattle.yt_io.specs.Sink.{add, AddsFront};
ghost use Rattle.yartos.specs.Answer.{IfVerdict, OrWriteFault};

use yt_answer::{Status, Verdict};
use yt_base::next_line;
use yt_io::{Sink, SinkFault};

/// Writes a text, one write a line, and stops at the first that fails. Takes no memory.
///
/// `Failed` comes only where the sink's count of faults rose in this call.
pub(crate) fn write_lines<K: Sink>(out: &mut K, text: &[u8]) -> Result<(), SinkFault>
    ensures count { K.faults out.old ≤ K.faults out.new }
    ensures ok { OnOk result (K.written out.new ≡ add (K.written out.old) text.now) }
    ensures failed { OnErr result (Rose (K.faults out.old) (K.faults out.new)) }
    ensures front { OnErr result (AddsFront (K.written out.old) (K.written out.new) text.now) }
{
    let mut at = 0;
    'lines: while let Some(line) = next_line(text, at) {
        out.write(&text[at..line.next])?;
        at = line.next;
    }
    Ok(())
}

/// Writes the text that goes with a verdict, one write a line. The verdict's status stands unless a write fails. Takes no memory.
///
/// `WriteFault` comes only where the sink's count of faults rose in this call.
pub(crate) fn tell<K: Sink>(out: &mut K, verdict: Verdict, text: &[u8]) -> Status
    ensures count { K.faults out.old ≤ K.faults out.new }
    ensures told { OrWriteFault result (status_of verdict) }
    ensures whole { IfVerdict result (K.written out.new ≡ add (K.written out.old) text.now) }
    ensures failed { result ≡ Status.WriteFault → Rose (K.faults out.old) (K.faults out.new) }
    ensures front { result ≡ Status.WriteFault → AddsFront (K.written out.old) (K.written out.new) text.now }
{
    match write_lines(out, text) {
        Ok(()) => Status::from(verdict),
        Err(SinkFault::Failed) => Status::WriteFault,
    }
}
