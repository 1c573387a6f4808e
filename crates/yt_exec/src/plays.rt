//! Plays of whole plans.
ghost use Rattle.std.specs.Prelude.{◌≡◌, ℕ, ◌+◌, ◌-◌, ◌<◌, ◌≤◌, ◌^◌, List, length, slice_get, Some, IfOk, OnOk};
ghost use Rattle.yt_log.specs.declared.plan.PlanItem.{PlanItem};
ghost use Rattle.yt_log.specs.Limits.{most_deadline};
ghost use Rattle.yt_log.specs.Plan.{IsLegal};
ghost use Rattle.yt_log.specs.EdfDdm.{edf_ddm};
ghost use Rattle.yt_log.specs.Laws.{IsSafe};
ghost use Rattle.yt_exec.specs.Inside.Counting.{IsPlaying};
ghost use Rattle.yt_exec.specs.StandsFor.{job_run};

use crate::counts::Counts;
use crate::executive::{Executive, Ticked};
use std::alloc::{AllocError, Global};
use yt_log::{Job, Log, Plan};
use yt_set::TaskSet;

/// A play as far as it has come: the items before place `next` are released.
#[derive(Drop)]
struct Playing<'a> {
    executive: Executive,
    counts: Counts<'a>,
    log: Log,
    next: usize,
}

impl<'a> Playing<'a> {
    /// A play before its first tick. `Err` comes where memory ran out.
    fn new(alloc: Global, set: &'a TaskSet, plan: &Plan) -> Result<Self, AllocError>
        requires { IsLegal set.now plan.now }
        ensures playing { IfOk result (λ p. IsPlaying set.now plan.now p.executive p.counts.rows.items p.next p.log) }
        ensures set { IfOk result (λ p. p.counts.set.now ≡ set.now) }
        ensures empty { IfOk result (λ p. length p.log ≡ 0) }
    {
        let counts = Counts::of(alloc, set, plan)?;
        let executive = Executive::with_room(alloc, set, plan.len())?;
        Ok(Playing {
            executive,
            counts,
            log: Log::new(alloc),
            next: 0,
        })
    }

    /// Releases the next item, where it has arrived; else gives a tick. `Err` comes where memory ran out.
    fn advance(&mut self, plan: &Plan) -> Result<(), AllocError>
        requires legal { IsLegal self.old.counts.set.now plan.now }
        requires playing { IsPlaying self.old.counts.set.now plan.now self.old.executive self.old.counts.rows.items self.old.next self.old.log }
        requires clock { length self.old.log < 2 ^ 62 }
        ensures playing { OnOk result (IsPlaying self.old.counts.set.now plan.now self.new.executive self.new.counts.rows.items self.new.next self.new.log) }
        ensures set { self.new.counts.set.now ≡ self.old.counts.set.now }
        ensures longer { OnOk result (length self.new.log + self.new.next ≡ length self.old.log + self.old.next + 1) }
        ensures tick { OnOk result (length self.new.log ≤ length self.old.log + 1) }
    {
        if self.next < plan.len() {
            let item = plan.at(self.next);
            if item.arrival <= self.executive.now() {
                self.executive.release(item.job);
                self.next += 1;
                return Ok(());
            }
        }
        let ticked = self.executive.tick(&mut self.counts);
        self.log.tell(job_of(ticked))
    }
}

/// The job that a tick went to.
fn job_of(ticked: Ticked) -> Option<Job>
    ensures { result ≡ job_run ticked }
{
    match ticked {
        Ticked::Idle => None,
        Ticked::Ran { job, .. } => Some(job),
    }
}

/// The log of the first `upto` ticks of a plan's jobs, missed deadlines or not, whatever the set. The caller shows that the plan is
/// legal, and that there are at most 9,000,000 ticks. Takes constant time for each tick, and for each item as many
/// comparisons as the waiting jobs can be halved and a move of those that come before it. `Err` comes where memory ran out.
pub fn play(alloc: Global, set: &TaskSet, plan: &Plan, upto: u64) -> Result<Log, AllocError>
    requires legal { IsLegal set.now plan.now }
    requires upto { upto ≤ most_deadline }
    ensures rule { IfOk result (λ log. log ≡ edf_ddm set.now plan.now upto) }
    ensures safe { IfOk result (λ log. IsSafe set.now plan.now log) }
{
    let mut playing = Playing::new(alloc, set, plan)?;
    while playing.log.until() < upto {
        playing.advance(plan)?;
    }
    Ok(playing.log)
}
