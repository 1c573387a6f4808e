//! The answer to tasks that don't fit.
ghost use Rattle.std.specs.Prelude.{◌≡◌, IfOk, length};
ghost use Rattle.yt_answer.specs.declared.verdict.Verdict.TheVariants.{Overload};
ghost use Rattle.yt_fits.specs.Unfits.{IsReason};
ghost use Rattle.yt_fitting.specs.Loads.{IsUnfitText, unfit_verdict};
ghost use Rattle.yt_fitting.specs.TaskText.{hyperperiod_line, kind_word};

use crate::kind::Kind;
use crate::labels::task_label;
use crate::overload::{load_overload, room_overload};
use std::alloc::{AllocError, Global};
use yt_answer::{Answer, Verdict};
use yt_base::Text;
use yt_fits::Unfit;
use yt_list::Name;
use yt_set::TaskSet;

/// The answer to tasks that don't fit, of a graph or a set as `kind` says, by their names and the reason. `Err` comes where
/// memory ran out.
pub fn unfit_answer(
    alloc: Global,
    kind: Kind,
    labels: &[Name],
    set: &TaskSet,
    why: &Unfit,
) -> Result<Answer, AllocError>
    requires labels { length labels.now ≡ length set.now }
    requires why { IsReason set.now why.now }
    ensures verdict { IfOk result (λ a. a.verdict ≡ unfit_verdict why.now) }
    ensures text { IfOk result (λ a. IsUnfitText (kind_word kind) labels.now set.now why.now a.text) }
{
    match *why {
        Unfit::Hyperperiod(task) => {
            let label = task_label(labels, task);
            Ok(Answer::refused(hyperperiod_line(alloc, kind, label)?))
        }
        Unfit::Overload(sum) => Ok(overload(load_overload(alloc, labels, set, sum)?)),
        Unfit::Interval(breach) => Ok(overload(room_overload(alloc, labels, set, breach)?)),
    }
}

/// The answer to tasks that don't fit, with the text that shows it.
fn overload(text: Text) -> Answer
    ensures { result ≡ record { verdict = Overload; text = text } }
{
    Answer {
        verdict: Verdict::Overload,
        text,
    }
}

/// The line of a graph or a set whose hyperperiod is too great, by the name of the task from which on it is.
fn hyperperiod_line(alloc: Global, kind: Kind, label: &[u8]) -> Result<Text, AllocError>
    ensures { IfOk result (λ t. t ≡ hyperperiod_line (kind_word kind) label.now) }
{
    let mut text = Text::new(alloc);
    text.put(kind.word())?;
    text.put(b" hyperperiod ")?;
    text.put(label)?;
    text.put(b"\n")?;
    Ok(text)
}
