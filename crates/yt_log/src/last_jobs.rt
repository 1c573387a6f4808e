//! The last job of each task among the items of a plan so far.
ghost use Rattle.std.specs.Prelude.{◌≡◌, ◌+◌, ◌≤◌, [], ◌∷◌, List, length, IsTrue, Some};
ghost use Rattle.yt_list.specs.Numbered.{numbered};
ghost use Rattle.yt_log.specs.declared.plan.PlanItem.{PlanItem};
ghost use Rattle.yt_set.specs.Limits.{most_tasks, most_ticks};
ghost use Rattle.yt_log.specs.Limits.{most_arrival};
ghost use Rattle.yt_log.specs.Plan.{its_task, jobs_of};
ghost use Rattle.yt_log.specs.LastJobs.{least_arrival};
ghost use Rattle.yt_log.specs.Inside.LastJobs.{AreLast, may_come, may_follow};

use crate::plan::{MOST_ARRIVAL, PlanItem};
use yt_set::{MOST_TASKS, Task, TaskSet};

/// A task's last job so far: its number and its arrival, both 0 where there is none.
#[derive(Clone, Copy)]
pub struct LastJob {
    /// Its number.
    pub number: u32,
    /// Its arrival.
    pub arrival: u64,
}

/// The last job so far of each task, by its number from 1.
#[derive(Drop)]
pub(crate) struct LastJobs {
    jobs: [LastJob; MOST_TASKS],
}

impl LastJobs {
    /// No job yet.
    pub(crate) fn new() -> Self
        ensures { AreLast result.jobs [] }
    {
        let none = LastJob {
            number: 0,
            arrival: 0,
        };
        LastJobs {
            jobs: [none; MOST_TASKS],
        }
    }

    /// The last job of a task.
    #[tactic(auto, using(yt_list::proofs::Lemmas::numbered_place))]
    pub(crate) fn of(&self, task: u32) -> LastJob
        requires positive { 1 ≤ task }
        requires within { task ≤ most_tasks }
        ensures { numbered self.now.jobs task ≡ Some result }
    {
        self.jobs[task as usize - 1]
    }

    /// Whether an item may follow the items so far, none of which arrives later.
    pub(crate) fn may_come(&self, set: &TaskSet, item: PlanItem) -> bool
        ensures answer { (before : List PlanItem) → AreLast self.now.jobs before → result ≡ may_come set.now before item }
        ensures from_one { IsTrue result → 1 ≤ item.job.task }
        ensures few { IsTrue result → item.job.task ≤ most_tasks }
        ensures positive { IsTrue result → 1 ≤ (its_task set.now item).period }
    {
        let task = item.job.task;
        if task == 0 {
            return false;
        }
        if task > set.len() {
            return false;
        }
        self.of(task).may_precede(set.task(task), item)
    }

    /// Takes an item's job as the last of its task.
    pub(crate) fn see(&mut self, item: PlanItem)
        requires positive { 1 ≤ item.job.task }
        requires within { item.job.task ≤ most_tasks }
        ensures { (before : List PlanItem) → AreLast self.old.jobs before → item.job.number ≡ jobs_of item.job.task before + 1 → AreLast self.new.jobs (item ∷ before) }
    {
        self.jobs[item.job.task as usize - 1] = LastJob {
            number: item.job.number,
            arrival: item.arrival,
        };
    }
}

impl LastJob {
    /// The least tick at which the task's next job may arrive.
    pub(crate) fn least_arrival(&self, task: Task) -> u64
        requires last { self.now.arrival ≤ most_arrival }
        requires task { task.period ≤ most_ticks }
        ensures { result ≡ least_arrival task self.now }
    {
        if self.number == 0 {
            0
        } else {
            self.arrival + task.period
        }
    }

    /// Whether an item may be the task's next job: whether it has the next number, comes at least a period later, costs what a job
    /// of the task may cost, and arrives when a job of a plan may arrive.
    pub(crate) fn may_precede(&self, task: Task, item: PlanItem) -> bool
        ensures { result ≡ may_follow task self.now item }
    {
        u64::from(item.job.number) == u64::from(self.number) + 1
            && (self.number == 0 || task.period <= item.arrival.saturating_sub(self.arrival))
            && 1 <= item.cost
            && item.cost <= task.cost
            && item.arrival <= MOST_ARRIVAL
    }
}
