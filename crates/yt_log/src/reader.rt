//! Reads a plan line by line.
ghost use Rattle.std.specs.Prelude.{◌≡◌, ◌+◌, ◌<◌, ◌≤◌, [], ◌∷◌, ◌++◌, length, reverse, IfNone, IfOk, MatchResult, OnErr, OnOk, Ok, Err, IsTrue};
ghost use Rattle.yt_base.specs.Lines.{fields_of};
ghost use Rattle.yt_set.specs.Limits.{most_ticks};
ghost use Rattle.yt_log.specs.Limits.{most_arrival};
ghost use Rattle.yt_log.specs.Plan.{IsLegalPlan, last_arrival};
ghost use Rattle.yt_log.specs.Inside.LastJobs.{may_come};
ghost use Rattle.yt_log.specs.PlanText.{item_fault, judged, judged_item};
ghost use Rattle.yt_log.specs.Inside.PlanReading.{IsFine, judged_so_far};

use crate::item_fault::ItemFault;
use crate::item_line::{ItemLine, ticks};
use crate::job::Job;
use crate::last_jobs::{LastJob, LastJobs};
use crate::plan::{Plan, PlanItem};
use crate::task_names::TaskNames;
use std::alloc::{AllocError, Global};
use std::marker::Model;
use yt_base::{LineError, LineReader};
use yt_set::Task;

/// The last tick at which a job of a plan's text may arrive.
const LATEST: u64 = 4_000_000;

/// How many jobs a plan's text has at most.
const MOST_JOBS: usize = 20_000;

/// What the lines so far say. A contract sees the set and the plan.
#[derive(Drop)]
pub(crate) struct Reader<'a> {
    names: TaskNames<'a>,
    plan: Plan,
    last: LastJobs,
}

impl<'a> Model for Reader<'a> {
    ghost use Rattle.yt_log.specs.Inside.PlanReading.{PlanSoFar, IsSoFar};

    ghost Value = { PlanSoFar };

    ghost view = { λ r. record { set = r.names; plan = r.plan } };

    ghost invariant = { λ r. IsSoFar (record { set = r.names; plan = r.plan }) r.last.jobs };
}

impl<'a> Reader<'a> {
    /// No line yet.
    pub(crate) fn new(alloc: Global, names: TaskNames<'a>) -> Self
        ensures { result ≡ record { set = names.entry; plan = [] } }
    {
        Reader {
            names,
            plan: Plan::new(alloc),
            last: LastJobs::new(),
        }
    }

    /// The job that a line says, which isn't skipped, or its first fault.
    fn judge(&self, line: &[u8]) -> Result<PlanItem, ItemFault>
        ensures answer { MatchResult result
            (λ item. judged self.now.set self.now.plan (fields_of line.now) ≡ Ok (self.now.plan ++ item ∷ []))
            (λ fault. judged self.now.set self.now.plan (fields_of line.now) ≡ Err fault) }
        ensures comes { IfOk result (λ item. IsTrue (may_come self.now.set.tasks (reverse self.now.plan) item)) }
        ensures order { IfOk result (λ item. last_arrival self.now.plan ≤ item.arrival) }
    {
        let Some(texts) = ItemLine::new(line) else {
            return Err(ItemFault::Form);
        };
        let arrival = ticks(texts.arrival)?;
        let cost = ticks(texts.cost)?;
        match self.names.find(texts.task) {
            None => Err(ItemFault::Unknown),
            Some(task) => self.judge_item(task, arrival, cost),
        }
    }

    /// The next job of a task, or its first fault.
    fn judge_item(&self, task: u32, arrival: u64, cost: u64) -> Result<PlanItem, ItemFault>
        requires positive { 1 ≤ task }
        requires within { task ≤ length self.now.set.tasks }
        ensures answer { MatchResult result
            (λ item. judged_item self.now.set.tasks self.now.plan task arrival cost ≡ Ok (self.now.plan ++ item ∷ []))
            (λ fault. judged_item self.now.set.tasks self.now.plan task arrival cost ≡ Err fault) }
        ensures comes { IfOk result (λ item. IsTrue (may_come self.now.set.tasks (reverse self.now.plan) item)) }
        ensures order { IfOk result (λ item. last_arrival self.now.plan ≤ item.arrival) }
    {
        let its = self.names.set().task(task);
        let last = self.last.of(task);
        let latest = self.plan.last_arrival();
        match item_fault(its, last, latest, self.plan.len(), arrival, cost) {
            Some(fault) => Err(fault),
            None => Ok(PlanItem {
                job: Job {
                    task,
                    number: last.number + 1,
                },
                arrival,
                cost,
            }),
        }
    }

    /// Adds a job behind those that are there. After an `Err` they are as before.
    fn add(&mut self, item: PlanItem) -> Result<(), AllocError>
        requires comes { IsTrue (may_come self.old.set.tasks (reverse self.old.plan) item) }
        requires order { last_arrival self.old.plan ≤ item.arrival }
        ensures ok { OnOk result (self.new ≡ record { set = self.old.set; plan = self.old.plan ++ item ∷ [] }) }
        ensures err { OnErr result (self.new ≡ self.old) }
    {
        self.plan.push(item)?;
        self.last.see(item);
        Ok(())
    }

    /// The plan that all lines say.
    pub(crate) fn finish(self) -> Plan
        ensures plan { result ≡ self.entry.plan }
        ensures legal { IsLegalPlan self.entry.set.tasks result }
    {
        self.plan
    }
}

impl<'a, 'b> LineReader<'b> for Reader<'a> {
    type Fault = ItemFault;

    ghost judged = { judged_so_far };

    fn read_line(self, line: &'b [u8]) -> Result<Self, LineError<ItemFault>> {
        let mut reader = self;
        match reader.judge(line) {
            Ok(item) => {
                reader.add(item)?;
                Ok(reader)
            }
            Err(fault) => Err(LineError::Fault(fault)),
        }
    }
}

/// The first fault of the next job of a task, after its last one, where the plan so far has so many jobs, of which the last arrives
/// at `latest`.
fn item_fault(
    its: Task,
    last: LastJob,
    latest: u64,
    jobs: usize,
    arrival: u64,
    cost: u64,
) -> Option<ItemFault>
    requires last { last.arrival ≤ most_arrival }
    requires its { its.period ≤ most_ticks }
    ensures answer { result ≡ item_fault its last latest jobs arrival cost }
    ensures fine { IfNone result (IsFine its last latest jobs arrival cost) }
{
    if !(1 <= cost && cost <= its.cost) {
        return Some(ItemFault::Cost);
    }
    if LATEST < arrival {
        return Some(ItemFault::Late);
    }
    if arrival < latest {
        return Some(ItemFault::Order);
    }
    let least = last.least_arrival(its);
    if arrival < least {
        return Some(ItemFault::Soon(least));
    }
    if MOST_JOBS <= jobs {
        return Some(ItemFault::Many);
    }
    None
}
