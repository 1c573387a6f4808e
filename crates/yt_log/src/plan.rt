//! Plans: which jobs arrive when, and what they cost.
ghost use Rattle.std.specs.Prelude.{◌≡◌, ◌↔◌, ◌<◌, ◌≤◌, [], ◌∷◌, ◌++◌, length, slice_get, IsTrue, Some, OnOk, OnErr};
ghost use Rattle.yt_log.specs.Limits.{most_arrival};
ghost use Rattle.yt_log.specs.Plan.{IsInOrder, IsLegalPlan, deadline_of, horizon, last_arrival};

use crate::job::Job;
use crate::last_jobs::LastJobs;
use std::alloc::{AllocError, Global};
use std::marker::Model;
use yt_set::TaskSet;

/// The last tick at which a job of a legal plan may arrive.
pub(crate) const MOST_ARRIVAL: u64 = 8_000_000;

/// A job of a plan.
#[derive(Clone, Copy, Debug, PartialEq, Eq)]
pub struct PlanItem {
    pub job: Job,
    /// The tick at which it arrives. It may run from then on.
    pub arrival: u64,
    /// How many ticks it takes.
    pub cost: u64,
}

impl PlanItem {
    /// The tick before which the item is to be done. The caller shows that its task is in the set, and that it arrives by tick
    /// 8,000,000.
    pub(crate) fn deadline(&self, set: &TaskSet) -> u64
        requires positive { 1 ≤ self.now.job.task }
        requires within { self.now.job.task ≤ length set.now }
        requires early { self.now.arrival ≤ most_arrival }
        ensures { result ≡ deadline_of set.now self.now }
    {
        set.task(self.job.task).deadline(self.arrival)
    }
}

/// Items in order of arrival. A contract sees the list of them.
#[derive(Debug, Drop)]
pub struct Plan {
    items: Vec<PlanItem>,
}

impl Model for Plan {
    ghost use Rattle.std.specs.Prelude.{List};
    ghost use Rattle.yt_log.specs.declared.plan.PlanItem.{PlanItem};
    ghost use Rattle.yt_log.specs.Plan.{IsInOrder};

    ghost Value = { List PlanItem };

    ghost view = { λ p. p.items.items };

    ghost invariant = { λ p. IsInOrder p.items.items };
}

impl Plan {
    /// The plan with no item. Takes no memory until the first `push`.
    pub fn new(alloc: Global) -> Self
        ensures { result ≡ [] }
    {
        Plan {
            items: Vec::new(alloc),
        }
    }

    /// Adds an item at the end. The caller shows that it arrives no earlier than the last one. `Err` comes where memory ran out;
    /// the plan is then as before.
    pub fn push(&mut self, item: PlanItem) -> Result<(), AllocError>
        requires { last_arrival self.old ≤ item.arrival }
        ensures ok { OnOk result (self.new ≡ self.old ++ item ∷ []) }
        ensures err { OnErr result (self.new ≡ self.old) }
    {
        Ok(self.items.push(item)?)
    }

    /// The arrival of the last item, 0 where there is none.
    pub fn last_arrival(&self) -> u64
        ensures { result ≡ last_arrival self.now }
    {
        match self.items.last() {
            Some(item) => item.arrival,
            None => 0,
        }
    }

    /// How many items there are. Whatever the plan, they are in order of arrival.
    pub fn len(&self) -> usize
        ensures len { result ≡ length self.now }
        ensures in_order { IsInOrder self.now }
    {
        self.items.len()
    }

    /// The item at place `n`, counted from 0. The caller shows that there is one.
    pub fn at(&self, n: usize) -> &PlanItem
        requires { n < length self.now }
        ensures { slice_get self.now n ≡ Some result.now }
    {
        &self.items[n]
    }

    /// Whether the plan is legal for a set, and each of its items arrives by tick 8,000,000. Takes time linear in the items, and
    /// no memory.
    pub fn legal(&self, set: &TaskSet) -> bool
        ensures { IsTrue result ↔ IsLegalPlan set.now self.now }
    {
        let mut last = LastJobs::new();
        for item in &self.items {
            if !last.may_come(set, *item) {
                return false;
            }
            last.see(*item);
        }
        true
    }

    /// The greatest deadline of the items, 0 where there are none. The caller shows that the plan is legal. Takes time linear in the
    /// items, and no memory.
    pub fn horizon(&self, set: &TaskSet) -> u64
        requires { IsLegalPlan set.now self.now }
        ensures { result ≡ horizon set.now self.now }
    {
        let mut horizon = 0;
        for item in &self.items {
            horizon = horizon.max(item.deadline(set));
        }
        horizon
    }

    /// All items in order, as a slice to go over.
    pub fn items(&self) -> &[PlanItem]
        ensures { result.now ≡ self.now }
    {
        &self.items
    }
}
