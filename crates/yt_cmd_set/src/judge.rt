//! What is due to the text of a task set.
ghost use Rattle.std.specs.Prelude.{◌<◌, ◌^◌, IfOk, length};
ghost use Rattle.yt_answer.specs.Due.{IsDue};
ghost use Rattle.yt_cmd_set.specs.Judged.{IsFitText, IsJudgedText, fit_verdict, judged_verdict};

use std::alloc::{AllocError, Global};
use yt_answer::Answer;
use yt_fits::fits;
use yt_fitting::{Kind, SetReading, accepted_answer, read_named_set, unfit_answer};
use yt_set::NamedSet;

/// What is due to the text of a set, which the caller shows to be shorter than 2^32 bytes. `Err` comes where memory ran out.
pub fn set_answer(alloc: Global, text: &[u8]) -> Result<Answer, AllocError>
    requires { length text.now < 2 ^ 32 }
    ensures { IfOk result (λ a. IsDue (judged_verdict {set = text.now}) (IsJudgedText {set = text.now}) a.verdict a.text) }
{
    match read_named_set(alloc, text)? {
        SetReading::Set(named) => judge(alloc, &named),
        SetReading::Refused(answer) => Ok(answer),
    }
}

/// What is due to the tasks of a set, by their names.
fn judge(alloc: Global, named: &NamedSet) -> Result<Answer, AllocError>
    ensures { IfOk result (λ a. IsDue (fit_verdict named.now) (IsFitText named.now) a.verdict a.text) }
{
    let set = named.set();
    match fits(set) {
        Ok(sum) => accepted_answer(alloc, set, sum),
        Err(why) => unfit_answer(alloc, Kind::Set, named.labels(), set, &why),
    }
}
