//! What is due to the play of a legal plan.
ghost use Rattle.std.specs.Prelude.{IfOk};
ghost use Rattle.yt_answer.specs.Due.{IsDue};
ghost use Rattle.yt_log.specs.Plan.{IsLegalPlan};
ghost use Rattle.yt_set.specs.Tasks.{IsTaskSet};
ghost use Rattle.yt_playing.specs.Plays.{IsEndingText, ending_verdict};

use crate::text::{kept_text, missed_text};
use std::alloc::{AllocError, Global};
use yt_answer::{Answer, Verdict};
use yt_exec::play;
use yt_log::{Plan, first_miss};
use yt_set::NamedSet;

/// What is due to the play of a plan, which the caller shows to be legal for the set: the schedule up to the first deadline that a job misses,
/// and this job, or the whole schedule where none does. `Err` comes where memory ran out.
pub fn played_answer(alloc: Global, named: &NamedSet, plan: &Plan) -> Result<Answer, AllocError>
    requires set { IsTaskSet named.now.tasks }
    requires plan { IsLegalPlan named.now.tasks plan.now }
    ensures { IfOk result (λ a. IsDue (ending_verdict {set = named.now} {plan = plan.now}) IsEndingText a.verdict a.text) }
{
    let set = named.set();
    let upto = plan.horizon(set);
    let log = play(alloc, set, plan, upto)?;
    match first_miss(set, plan, &log, upto) {
        Some(miss) => Ok(Answer {
            verdict: Verdict::Missed,
            text: missed_text(alloc, named.labels(), &log, miss)?,
        }),
        None => Ok(Answer::done(kept_text(alloc, named.labels(), &log)?)),
    }
}
