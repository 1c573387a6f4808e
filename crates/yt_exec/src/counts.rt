//! A body that only counts.
ghost use Rattle.std.specs.Prelude.{◌≡◌, ◌↔◌, ℕ, ◌+◌, ◌-◌, ◌<◌, ◌≤◌, List, [], ◌∷◌, ◌++◌, length, take, replicate, slice_index_or, slice_set, IfOk, OnOk};
ghost use Rattle.yt_set.specs.declared.task.Task.{Task};
ghost use Rattle.yt_log.specs.declared.job.Job.{Job};
ghost use Rattle.yt_log.specs.declared.plan.PlanItem.{PlanItem};
ghost use Rattle.yt_log.specs.Tasks.{Has};
ghost use Rattle.yt_log.specs.Plan.{IsLegal};
ghost use Rattle.yt_exec.specs.Bodies.{Begins, IsFree, IsKnown, MayStillBegin, Steps};
ghost use Rattle.yt_exec.specs.Inside.Counting.{cost_at, count_at, HasCount, left_at, Leaves, MayBegin, no_count};

use crate::body::{Body, Turn};
use std::alloc::{AllocError, Global};
use std::marker::Model;
use yt_log::{Job, Plan};
use yt_set::TaskSet;

/// What a job costs, and how many ticks of it are left; none before it begins.
#[derive(Clone, Copy, Debug)]
pub(crate) struct Count {
    pub(crate) cost: u64,
    pub(crate) left: u64,
}

/// The counts of a task's jobs by their numbers; number 0 stands for none. A contract sees the list of them.
#[derive(Drop)]
pub(crate) struct Row {
    counts: Vec<Count>,
}

impl Model for Row {
    ghost use Rattle.std.specs.Prelude.{List};
    ghost use Rattle.yt_exec.specs.declared.counts.Count.{Count};

    ghost Value = { List Count };

    ghost view = { λ r. r.counts.items };
}

impl Row {
    /// The row of no jobs.
    fn new(alloc: Global) -> Result<Self, AllocError>
        ensures { IfOk result (λ row. row ≡ no_count ∷ []) }
    {
        let mut counts = Vec::new(alloc);
        counts.push(Count { cost: 0, left: 0 })?;
        Ok(Row { counts })
    }

    /// Adds the next job. `Err` comes where memory ran out.
    fn push(&mut self, cost: u64) -> Result<(), AllocError>
        ensures { OnOk result (self.new ≡ self.old ++ (record { cost = cost; left = 0 }) ∷ []) }
    {
        Ok(self.counts.push(Count { cost, left: 0 })?)
    }

    /// The count of a job. The caller shows that it is there.
    fn count(&self, number: u32) -> Count
        requires { number < length self.now }
        ensures { result ≡ slice_index_or self.now number no_count }
    {
        self.counts[number as usize]
    }

    /// Puts how many ticks of a job are left. The caller shows that it is there.
    fn put(&mut self, number: u32, count: Count)
        requires { number < length self.old }
        ensures { self.new ≡ slice_set self.old number count }
    {
        self.counts[number as usize] = count;
    }
}

/// A body whose jobs cost what a plan says and do nothing.
#[derive(Drop)]
pub(crate) struct Counts<'a> {
    set: &'a TaskSet,
    /// By the tasks' numbers; number 0 stands for none.
    rows: Vec<Row>,
}

impl<'a> Counts<'a> {
    /// The counts of a legal plan's jobs, none of which has begun. All memory is taken here; `Err` comes where it ran out.
    pub(crate) fn of(alloc: Global, set: &'a TaskSet, plan: &Plan) -> Result<Self, AllocError>
        requires { IsLegal set.now plan.now }
        ensures set { IfOk result (λ counts. counts.set.now ≡ set.now) }
        ensures told { IfOk result (λ counts. (item : PlanItem) → Has plan.now item → cost_at counts.rows.items item.job ≡ item.cost) }
        ensures idle { IfOk result (λ counts. (job : Job) → left_at counts.rows.items job ≡ 0) }
    {
        let rows = rows_of(alloc, set, plan)?;
        Ok(Counts { set, rows })
    }
}

impl<'a> Body for Counts<'a> {
    ghost tasks = { λ c. c.set.now };

    ghost left = { λ c. left_at c.rows.items };

    ghost may_begin = { λ c. MayBegin c.set.now c.rows.items };

    ghost begins = { λ c job d. Leaves c.rows.items d.rows.items job (cost_at c.rows.items job) };

    ghost steps = { λ c job d. (left_at c.rows.items job ≡ left_at d.rows.items job + 1) × Leaves c.rows.items d.rows.items job (left_at d.rows.items job) };

    fn begin(&mut self, job: Job) {
        let count = count_of(&self.rows, job);
        put_left(&mut self.rows, job, count.cost);
    }

    fn step(&mut self, job: Job) -> Turn {
        let left = count_of(&self.rows, job).left - 1;
        put_left(&mut self.rows, job, left);
        if left == 0 { Turn::Last } else { Turn::More }
    }
}

/// The count of a job. The caller shows that it is there.
fn count_of(rows: &[Row], job: Job) -> Count
    requires { HasCount rows.now job }
    ensures { result ≡ count_at rows.now job }
{
    rows[job.task as usize].count(job.number)
}

/// Puts how many ticks of a job are left. The caller shows that its count is there.
fn put_left(rows: &mut [Row], job: Job, left: u64)
    requires { HasCount rows.old job }
    ensures { Leaves rows.old rows.new job left }
{
    let cost = count_of(rows, job).cost;
    rows[job.task as usize].put(job.number, Count { cost, left });
}

/// The rows of the jobs of a legal plan.
fn rows_of(alloc: Global, set: &TaskSet, plan: &Plan) -> Result<Vec<Row>, AllocError>
    requires legal { IsLegal set.now plan.now }
    ensures told { IfOk result (λ rows. (item : PlanItem) → Has plan.now item → cost_at rows.items item.job ≡ item.cost) }
    ensures idle { IfOk result (λ rows. (job : Job) → left_at rows.items job ≡ 0) }
{
    let mut rows = empty_rows(alloc, set.len())?;
    for item in plan.items() {
        rows[item.job.task as usize].push(item.cost)?;
    }
    Ok(rows)
}

/// Rows of no jobs, for so many tasks.
fn empty_rows(alloc: Global, tasks: u32) -> Result<Vec<Row>, AllocError>
    ensures { IfOk result (λ rows. rows.items ≡ replicate (tasks + 1) (no_count ∷ [])) }
{
    let mut rows = Vec::new(alloc);
    rows.push(Row::new(alloc)?)?;
    for _task in 0..tasks {
        rows.push(Row::new(alloc)?)?;
    }
    Ok(rows)
}
