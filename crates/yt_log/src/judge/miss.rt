//! The first miss of a log.
ghost use Rattle.std.specs.Prelude.{◌≡◌, ◌↔◌, ℕ, ◌+◌, ◌-◌, ◌<◌, ◌≤◌, length, slice_index, IfNone, IfSome, IsNone, MatchOption};
ghost use Rattle.yt_log.specs.declared.plan.PlanItem.{PlanItem};
ghost use Rattle.yt_log.specs.Inside.Counts.{AreOrdered, Judges, Passes, rank_of, segment_at, sooner_miss, ticks_below};
ghost use Rattle.yt_order.specs.Words.{precedes};
ghost use Rattle.yt_log.specs.Judging.{IsFirstMiss};
ghost use Rattle.yt_log.specs.Plan.{IsLegal, deadline_of};
ghost use Rattle.yt_log.specs.Tasks.{Has};
ghost use Rattle.yt_log.specs.Ticks.{IsLawful, KeepsDeadlines, Misses};

use super::counts::{passed, ticks_below};
use crate::job::{Job, Segment};
use crate::log::Log;
use crate::plan::{Plan, PlanItem};
use yt_set::{MOST_TASKS, TaskSet};

/// A job that isn't done by its deadline.
#[derive(Clone, Copy, Debug, PartialEq, Eq)]
pub struct Miss {
    /// Its deadline.
    pub due: u64,
    /// The job.
    pub job: Job,
}

/// The first job that misses its deadline, of those with a deadline of at most `upto`: the least by deadline, task and number. `None`
/// comes exactly where each of them has its cost in ticks below its deadline. The log may be any log, and has `upto` ticks or more.
pub fn first_miss(set: &TaskSet, plan: &Plan, log: &Log, upto: u64) -> Option<Miss>
    requires legal { IsLegal set.now plan.now }
    requires told { upto ≤ length log.now }
    ensures first { IfSome result (λ miss. IsFirstMiss set.now plan.now log.now upto miss.job) }
    ensures due { IfSome result (λ miss. (item : PlanItem) → Has plan.now item → item.job ≡ miss.job → miss.due ≡ deadline_of set.now item) }
    ensures none { IsNone result ↔ (Misses set.now plan.now log.now upto → ⊥) }

    // No lawful log gives a job more ticks than it costs.
    ensures keeps { IsLawful plan.now log.now → (IsNone result ↔ KeepsDeadlines set.now plan.now log.now upto) }
{
    let segments = log.segments();
    let mut places = [0; MOST_TASKS];
    let seen = &mut places[..set.len() as usize];
    let mut first = None;
    for item in plan.items() {
        first = sooner(first, judge(set, segments, seen, item, upto));
    }
    first
}

/// The miss of an item, where it has a deadline of at most `upto` and misses it. `seen` has for each task so many segments in front
/// that no item from this one on is named in; those of its task go on to its deadline.
fn judge(
    set: &TaskSet,
    segments: &[Segment],
    seen: &mut [usize],
    item: &PlanItem,
    upto: u64,
) -> Option<Miss>
    requires from_one { 1 ≤ item.now.job.task }
    requires in_set { item.now.job.task ≤ length set.now }
    requires all { length seen.old ≡ length set.now }
    requires ordered { AreOrdered segments.now }
    requires within { slice_index seen.old (item.now.job.task - 1) ≤ length segments.now }
    requires unnamed { (k : ℕ) → k < slice_index seen.old (item.now.job.task - 1) → (segment_at segments.now k).job ≡ item.now.job → ⊥ }
    ensures judged { Judges set.now segments.now upto item.now result }
    ensures passes { Passes segments.now item.now seen.old seen.new }
{
    let due = due_by(set, item, upto)?;
    let task = item.job.task as usize - 1;
    let left = &segments[seen[task]..];
    seen[task] += passed(left, item.job, due);
    miss_of(left, item, due)
}

/// The miss of an item that is due at tick `due`, where the segments give it less than it costs below this tick.
fn miss_of(segments: &[Segment], item: &PlanItem, due: u64) -> Option<Miss>
    requires { AreOrdered segments.now }
    ensures none { IfNone result (item.now.cost ≤ ticks_below segments.now item.now.job due) }
    ensures some { IfSome result (λ miss. (miss.due ≡ due) × (miss.job ≡ item.now.job) × (ticks_below segments.now item.now.job due < item.now.cost)) }
{
    let job = item.job;
    if ticks_below(segments, job, due) < item.cost {
        Some(Miss { due, job })
    } else {
        None
    }
}

/// The deadline of an item, where it is at most `upto`.
fn due_by(set: &TaskSet, item: &PlanItem, upto: u64) -> Option<u64>
    requires from_one { 1 ≤ item.now.job.task }
    requires in_set { item.now.job.task ≤ length set.now }
    ensures { MatchOption result (upto < deadline_of set.now item.now) (λ due. (due ≡ deadline_of set.now item.now) × (due ≤ upto)) }
{
    let task = set.task(item.job.task);
    let within = task.within();
    if item.arrival <= upto && within <= upto - item.arrival {
        Some(task.deadline(item.arrival))
    } else {
        None
    }
}

/// Of two misses the one that comes first.
#[tactic(auto, unfolding(crate::specs::EdfDdm::sooner, crate::specs::Inside::Counts::sooner_miss))]
fn sooner(first: Option<Miss>, other: Option<Miss>) -> Option<Miss>
    ensures { result ≡ sooner_miss first other }
{
    match (first, other) {
        (Some(miss), Some(next)) if precedes(&next, &miss) => other,
        (None, _) => other,
        _ => first,
    }
}

/// Whether a miss comes before another: by deadline, then task, then number.
#[tactic(auto, unfolding(yt_order::specs::Words::precedes, crate::specs::Inside::Counts::rank_of))]
fn precedes(miss: &Miss, other: &Miss) -> bool
    ensures { result ≡ precedes (rank_of miss.now) (rank_of other.now) }
{
    if miss.due != other.due {
        miss.due < other.due
    } else if miss.job.task != other.job.task {
        miss.job.task < other.job.task
    } else {
        miss.job.number < other.job.number
    }
}
