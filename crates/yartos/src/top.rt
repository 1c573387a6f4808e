//! The top call.
ghost use Rattle.std.specs.Prelude.{◌≡◌, ◌⊎◌, ◌≤◌, ℕ, List, Option, Some};
ghost use Rattle.yt_io.specs.Faults.{IsQuiet, Rose};
ghost use Rattle.yt_io.specs.Sink.{AddsFront, add};
ghost use Rattle.yartos.specs.Words.{IsNotBuilt, NeedsNoFile, misuse, request_of, texts};
ghost use Rattle.yartos.specs.Answer.{CallsFor, CannotReadNamed, IfVerdict, IsAnswer, OrNoMemory, OrWriteFault};
ghost use Rattle.yartos.specs.FileCauses.{long_line};

use crate::command::answer_command;
use crate::files::Unanswered;
use crate::words::{Request, request_of};
use crate::write::tell;
use std::alloc::Global;
use yt_answer::{NOT_YET, Status, Verdict};
use yt_base::Line;
use yt_io::{Shelf, Sink};

/// What is written where the words are no listed form.
const USAGE: &[u8] =
    b"usage: yartos form G, tasks G, check G, run G T, stop G T N, set S, play S P, replay S, demo N\n";

/// Answers the words, with what the shelf holds, on the sink: each line is one write. All memory is taken before the first
/// write, and after a failed write nothing more is written.
pub fn yartos<S: Shelf, K: Sink>(
    alloc: Global,
    words: &Vec<String>,
    shelf: &mut S,
    out: &mut K,
) -> Status
    // The counts of faults don't fall, and nothing is done to the files.
    ensures shelf_count { S.faults shelf.old ≤ S.faults shelf.new }
    ensures sink_count { K.faults out.old ≤ K.faults out.new }
    ensures same { S.held shelf.new ≡ S.held shelf.old }

    // Each fault has its cause.
    ensures read_fault { result ≡ Status.ReadFault →
        CannotReadNamed (S.held shelf.old) (request_of (texts words.now.items)) ⊎ Rose (S.faults shelf.old) (S.faults shelf.new) }
    ensures write_fault { result ≡ Status.WriteFault → Rose (K.faults out.old) (K.faults out.new) }

    // Whichever counts rose, a verdict is the one that is due, and its whole text was written and nothing else.
    ensures verdict { IfVerdict result ((text : List ℕ) × IsAnswer (S.held shelf.old) (texts words.now.items) result text
        × (K.written out.new ≡ add (K.written out.old) text)) }

    // After a failed write stands a front of the text that was due, and else the sink is as it was.
    ensures front { result ≡ Status.WriteFault → (due : Status) × (text : List ℕ) × IsAnswer (S.held shelf.old) (texts words.now.items) due text
        × AddsFront (K.written out.old) (K.written out.new) text }
    ensures nothing { result ≡ Status.ReadFault → out.new ≡ out.old }
    ensures no_memory { result ≡ Status.NoMemory → out.new ≡ out.old }

    // Words of no listed form, or of one that isn't built yet, are answered even where there is no memory, and no file is read.
    ensures no_form { request_of (texts words.now.items) ≡ misuse → OrWriteFault result Status.Usage }
    ensures not_built { IsNotBuilt (request_of (texts words.now.items)) → OrWriteFault result Status.NotYet }
    ensures unread { NeedsNoFile (request_of (texts words.now.items)) → shelf.new ≡ shelf.old }

    // Where the shelf tells what it holds and no count rises, the status is the one that is called for, unless memory runs out.
    ensures complete { (held : List ℕ → Option (List ℕ)) (due : Status) → S.held shelf.old ≡ Some held → CallsFor held (texts words.now.items) due →
        IsQuiet (S.faults shelf.old) (S.faults shelf.new) → IsQuiet (K.faults out.old) (K.faults out.new) → OrNoMemory result due }
{
    match request_of(words) {
        Request::Misuse => tell(out, Verdict::Usage, USAGE),
        Request::Demo { .. } => tell(out, Verdict::NotYet, NOT_YET),
        Request::Judges(command) => match answer_command(alloc, command, shelf) {
            Ok(answer) => tell(out, answer.verdict, answer.text.as_slice()),
            Err(Unanswered::TooLong(number)) => {
                tell(out, Verdict::Long, long_line(number).bytes())
            }
            Err(Unanswered::NotRead) => Status::ReadFault,
            Err(Unanswered::NoMemory) => Status::NoMemory,
        },
    }
}

/// The line of a file that is too long, by its number among the files, from 1.
fn long_line(number: u64) -> Line
    ensures { result ≡ long_line number }
{
    let mut line = Line::new();
    line.put(b"long file ");
    line.put_u64(number);
    line.put(b"\n");
    line
}
