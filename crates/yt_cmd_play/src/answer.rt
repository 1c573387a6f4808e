//! What is due to a play of the text of a plan.
ghost use Rattle.std.specs.Prelude.{◌≡◌, ◌<◌, ◌^◌, [], ◌∷◌, ◌++◌, IfOk, codes, decimal, length};
ghost use Rattle.yt_answer.specs.Due.{IsDue};
ghost use Rattle.yt_set.specs.Tasks.{IsTaskSet};
ghost use Rattle.yt_cmd_play.specs.Causes.{IsPlanText, IsPlayText, plan_verdict, play_verdict};
ghost use Rattle.yt_cmd_play.specs.Lines.{IsPlanLine, plan_line};

use std::alloc::{AllocError, Global};
use yt_answer::{Answer, Verdict};
use yt_base::Text;
use yt_fitting::{FileKind, SetReading, fault_line, read_named_set};
use yt_log::{PlanFault, read_plan};
use yt_playing::played_answer;
use yt_set::NamedSet;

/// What is due to a play, by the texts of the set and of the plan, which the caller shows to be shorter than 2^32 bytes. `Err` comes where memory ran out.
pub fn play_answer(alloc: Global, set: &[u8], plan: &[u8]) -> Result<Answer, AllocError>
    requires set { length set.now < 2 ^ 32 }
    requires plan { length plan.now < 2 ^ 32 }
    ensures { IfOk result (λ a. IsDue (play_verdict {set = set.now} {plan = plan.now}) IsPlayText a.verdict a.text) }
{
    match read_named_set(alloc, set)? {
        SetReading::Set(named) => plan_answer(alloc, &named, plan),
        SetReading::Refused(answer) => Ok(answer),
    }
}

/// What is due to the text of a plan for a set. `Err` comes where memory ran out.
fn plan_answer(alloc: Global, named: &NamedSet, plan: &[u8]) -> Result<Answer, AllocError>
    requires set { IsTaskSet named.now.tasks }
    requires plan { length plan.now < 2 ^ 32 }
    ensures { IfOk result (λ a. IsDue (plan_verdict {set = named.now} {plan = plan.now}) IsPlanText a.verdict a.text) }
{
    match read_plan(alloc, named, plan) {
        Ok(plan) => played_answer(alloc, named, &plan),
        Err(fault) => Ok(Answer {
            verdict: Verdict::Trace,
            text: plan_line(alloc, fault)?,
        }),
    }
}

/// The line of a fault of a plan's text. `Err` comes where memory ran out, as `Memory` says.
fn plan_line(alloc: Global, fault: PlanFault) -> Result<Text, AllocError>
    ensures { IfOk result (λ line. IsPlanLine line fault) }
{
    match fault {
        PlanFault::Form(line) => fault_line(alloc, FileKind::Plan, line, b" form\n"),
        PlanFault::Unknown(line) => fault_line(alloc, FileKind::Plan, line, b" unknown\n"),
        PlanFault::Cost(line) => fault_line(alloc, FileKind::Plan, line, b" cost\n"),
        PlanFault::Late(line) => fault_line(alloc, FileKind::Plan, line, b" late\n"),
        PlanFault::Order(line) => fault_line(alloc, FileKind::Plan, line, b" order\n"),
        PlanFault::Soon { line, least } => soon_line(alloc, line, least),
        PlanFault::Many(line) => fault_line(alloc, FileKind::Plan, line, b" many\n"),
        PlanFault::Memory => Err(AllocError),
    }
}

/// The line about a job that arrives too soon, by the least tick at which it may.
fn soon_line(alloc: Global, number: u32, least: u64) -> Result<Text, AllocError>
    ensures { IfOk result (λ line. line ≡ plan_line number (codes " soon " ++ (decimal least ++ 10 ∷ []))) }
{
    let mut line = fault_line(alloc, FileKind::Plan, number, b" soon ")?;
    line.put_u64(least)?;
    line.put(b"\n")?;
    Ok(line)
}
