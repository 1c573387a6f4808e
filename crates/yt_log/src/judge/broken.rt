//! The first tick at which a log breaks a rule.
#![tactic(auto, using(crate::proofs::Demands::task_read), unfolding(crate::specs::Inside::Heads::item_at, crate::specs::Inside::Heads::head_at))]

ghost use Rattle.std.specs.Prelude.{◌≡◌, ◌↔◌, ℕ, ◌<◌, ◌≤◌, length, IfErr, IfNone, IfOk, IfSome, IsFalse, IsNone, IsTrue, None, Some};
ghost use Rattle.std.specs.List.{All};
ghost use Rattle.yt_set.specs.Tasks.{IsTaskSet};
ghost use Rattle.yt_log.specs.EdfDdm.{choice};
ghost use Rattle.yt_log.specs.Inside.Following.{Follows, IsStretch};
ghost use Rattle.yt_log.specs.Inside.Heads.{KeepsResource, head_at, item_of};
ghost use Rattle.yt_log.specs.Judging.{IsFirstBroken, IsUnbroken, JobWaits};
ghost use Rattle.yt_log.specs.Plan.{IsLegalPlan};
ghost use Rattle.yt_log.specs.Tasks.{Has, task_of};
ghost use Rattle.yt_log.specs.Ticks.{tick as tick_of};

use super::counts::ticks_below;
use super::heads::{Head, NO_HEAD, least_head, moved, next_arrival, start};
use super::stretch::{Stretch, next_from, stretch_from};
use crate::job::Job;
use crate::log::Log;
use crate::plan::{Plan, PlanItem};
use yt_set::{MOST_TASKS, TaskSet};

/// What a log is judged by, in this order.
#[derive(Clone, Copy, Debug, PartialEq, Eq)]
pub enum Rule {
    /// The tick goes to a job that doesn't wait: it isn't in the plan, hasn't arrived or is done.
    Unlawful,
    /// The tick is idle while a job waits.
    Idle,
    /// Two jobs under one resource are active in the tick.
    Shared,
    /// The tick went elsewhere than where earliest deadline first with dynamic deadline modification gives it.
    NotLeast,
}

/// A rule that a log breaks, and the tick at which it does.
#[derive(Clone, Copy, Debug, PartialEq, Eq)]
pub struct Broken {
    pub tick: u64,
    pub rule: Rule,
}

/// The first tick at which a log breaks a rule, and the first rule that it breaks there. `None` comes exactly where the log is
/// lawful, work-conserving and exclusive, and each tick went where the rule gives it. The caller shows that the plan is legal; the
/// log may be any log.
pub fn first_broken(set: &TaskSet, plan: &Plan, log: &Log) -> Option<Broken>
    requires { IsLegalPlan set.now plan.now }
    ensures first { IfSome result (λ broken. IsFirstBroken set.now plan.now log.now broken) }
    ensures none { IsNone result ↔ IsUnbroken set.now plan.now log.now }
{
    let mut places = [NO_HEAD; MOST_TASKS];
    let heads = &mut places[..set.len() as usize];
    start(set, plan.items(), heads);
    let until = log.until();
    let mut tick = 0;
    let mut next = 0;
    while tick < until {
        let stretch = stretch_from(log, next, tick);
        match follow(set, plan, log, heads, tick, stretch) {
            Ok(to) => {
                next = next_from(log, next, tick, to);
                tick = to;
            }
            Err(rule) => return Some(Broken { tick, rule }),
        }
    }
    None
}

/// Follows a log over a stretch up to the next tick at which the rule may choose anew. `Err` comes where the log leaves the rule at
/// once, with what it breaks there.
fn follow(
    set: &TaskSet,
    plan: &Plan,
    log: &Log,
    heads: &mut [Head],
    tick: u64,
    stretch: Stretch,
) -> Result<u64, Rule>
    requires legal { IsLegalPlan set.now plan.now }
    requires in_range { IsTaskSet set.now }
    requires follows { Follows set.now plan.now log.now tick heads.old }
    requires stretch { IsStretch log.now tick stretch }
    ensures after { IfOk result (λ to. tick < to) }
    ensures most { IfOk result (λ to. to ≤ stretch.to) }
    ensures follows { IfOk result (λ to. Follows set.now plan.now log.now to heads.new) }
    ensures broken { IfErr result (λ rule. IsFirstBroken set.now plan.now log.now (record { tick = tick; rule = rule })) }
{
    let items = plan.items();
    let to = next_arrival(items, heads, tick, stretch.to);
    let least = least_head(items, heads, tick);
    match (least, stretch.job) {
        (None, None) => Ok(to),
        (None, Some(_)) => Err(Rule::Unlawful),
        (Some(_), None) => Err(Rule::Idle),
        (Some(n), Some(job)) => {
            let head = heads[n];
            let item = items[head.place];
            if job != item.job {
                return Err(broken_rule(set, plan, log, heads, tick, job));
            }
            let ticks = (to - tick).min(item.cost - head.had);
            heads[n] = moved(set, items, head, tick, ticks);
            Ok(tick + ticks)
        }
    }
}

/// The first rule that a log breaks at a tick that goes to another job than the rule's, while some job waits.
fn broken_rule(set: &TaskSet, plan: &Plan, log: &Log, heads: &[Head], tick: u64, job: Job) -> Rule
    requires legal { IsLegalPlan set.now plan.now }
    requires in_range { IsTaskSet set.now }
    requires follows { Follows set.now plan.now log.now tick heads.now }
    requires below { tick < length log.now }
    requires named { tick_of log.now tick ≡ Some job }
    requires leaves { tick_of log.now tick ≡ choice set.now plan.now log.now tick → ⊥ }
    ensures { IsFirstBroken set.now plan.now log.now (record { tick = tick; rule = result }) }
{
    if !waits(plan, log, job, tick) {
        Rule::Unlawful
    } else if shares(set, plan.items(), heads, job) {
        Rule::Shared
    } else {
        Rule::NotLeast
    }
}

/// Whether a job waits at a tick.
fn waits(plan: &Plan, log: &Log, job: Job, tick: u64) -> bool
    requires { (item other : PlanItem) → Has plan.now item → Has plan.now other → item.job ≡ other.job → item ≡ other }
    ensures { IsTrue result ↔ JobWaits plan.now log.now tick job }
{
    match find(plan.items(), job) {
        Some(item) => item.arrival <= tick && ticks_below(log.segments(), job, tick) < item.cost,
        None => false,
    }
}

/// The first item of a job.
fn find(items: &[PlanItem], job: Job) -> Option<PlanItem>
    ensures some { IfSome result (λ item. Has items.now item × (item.job ≡ job)) }
    ensures none { IfNone result ((item : PlanItem) → Has items.now item → item.job ≡ job → ⊥) }
{
    for item in items {
        if item.job == job {
            return Some(*item);
        }
    }
    None
}

/// Whether the resource of a job's task is kept by another job, which has begun and isn't done.
fn shares(set: &TaskSet, items: &[PlanItem], heads: &[Head], job: Job) -> bool
    requires from_one { 1 ≤ job.task }
    requires in_set { job.task ≤ length set.now }
    requires tasks { (n : ℕ) → n < length heads.now → (head_at heads.now n).place < length items.now → (1 ≤ (item_of items.now (head_at heads.now n)).job.task) × ((item_of items.now (head_at heads.now n)).job.task ≤ length set.now) }
    ensures yes { IsTrue result → (0 < (task_of set.now job.task).resource) × ((n : ℕ) × (n < length heads.now) × KeepsResource set.now items.now (task_of set.now job.task).resource job (head_at heads.now n)) }
    ensures no { IsFalse result → 0 < (task_of set.now job.task).resource → (n : ℕ) → n < length heads.now → KeepsResource set.now items.now (task_of set.now job.task).resource job (head_at heads.now n) → ⊥ }
{
    let resource = set.task(job.task).resource;
    if resource == 0 {
        return false;
    }
    for head in heads {
        if keeps(set, items, *head, resource, job) {
            return true;
        }
    }
    false
}

/// Whether a head's item has begun and keeps a resource from another job.
fn keeps(set: &TaskSet, items: &[PlanItem], head: Head, resource: u32, job: Job) -> bool
    requires { head.place < length items.now → (1 ≤ (item_of items.now head).job.task) × ((item_of items.now head).job.task ≤ length set.now) }
    ensures { IsTrue result ↔ KeepsResource set.now items.now resource job head }
{
    if head.place >= items.len() || head.had == 0 {
        return false;
    }
    let item = items[head.place];
    item.job != job && set.task(item.job.task).resource == resource
}
