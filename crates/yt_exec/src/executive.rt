//! The executive.
ghost use Rattle.std.specs.Prelude.{◌≡◌, ◌↔◌, ℕ, ◌+◌, ◌-◌, ◌<◌, ◌≤◌, ◌^◌, Bool, true, false, List, [], length, map, slice_set, IfOk, IsTrue};
ghost use Rattle.std.specs.List.{Contains};
ghost use Rattle.yt_set.specs.declared.task.Task.{Task};
ghost use Rattle.yt_set.specs.Limits.{most_ticks};
ghost use Rattle.yt_set.specs.Tasks.{IsTaskSet, floor_of};
ghost use Rattle.yt_log.specs.declared.job.Job.{Job};
ghost use Rattle.yt_log.specs.EdfDdm.{lowered};
ghost use Rattle.yt_order.specs.Falling.{HasOneMore};
ghost use Rattle.yt_exec.specs.Bodies.{GivesTick, IsFree, IsKnown, MayStillBegin, Runs};
ghost use Rattle.yt_exec.specs.Moments.{after_tick, at_tick, IsNextJob, job_in, released, resource_in, start};
ghost use Rattle.yt_exec.specs.StandsFor.{GoesOnTo, GoesOnWith, IdlesTo, IsBodyOf, IsTick, StandsFor};

use crate::body::{Body, Turn};
use std::alloc::{AllocError, Global};
use std::marker::Model;
use yt_log::{Job, LastJob};
use yt_ready::{Entry, Ready};
use yt_set::{Task, TaskSet};

/// What became of a tick.
#[derive(Clone, Copy, Debug, PartialEq, Eq)]
pub enum Ticked {
    /// No job waited.
    Idle,
    /// The job was given the tick, and had ended with it or not.
    Ran { job: Job, ended: bool },
}

/// Gives each tick to the waiting job that earliest deadline first with dynamic deadline modification goes by. A contract sees a
/// `Moment`: the set, the waiting jobs, the room for more, the next tick, and each task's last release.
#[derive(Drop)]
pub struct Executive {
    tasks: Vec<Task>,
    /// Of each task, the deadline floor of its resource.
    floors: Vec<Option<u64>>,
    releases: Vec<LastJob>,
    ready: Ready,
    clock: u64,
}

impl Model for Executive {
    ghost use Rattle.std.specs.Prelude.{◌≡◌, map};
    ghost use Rattle.yt_set.specs.Tasks.{floor_of};
    ghost use Rattle.yt_exec.specs.Moments.{Moment, IsSound};

    ghost Value = { Moment };

    ghost view = { λ e. record { tasks = e.tasks.items; entries = e.ready.entries; spare = e.ready.spare; clock = e.clock; releases = e.releases.items } };

    ghost invariant = { λ e. IsSound e.tasks.items e.ready.entries e.clock e.releases.items
        × (e.floors.items ≡ map (λ task. floor_of e.tasks.items task.resource) e.tasks.items) };
}

impl Executive {
    /// An executive of a set, at tick 0, with room for `jobs` waiting jobs and none released. All memory is taken here; `Err` comes
    /// where it ran out.
    pub fn with_room(alloc: Global, set: &TaskSet, jobs: usize) -> Result<Self, AllocError>
        ensures start { IfOk result (λ executive. executive ≡ start set.now jobs) }
        ensures stands { IfOk result (λ executive. (left : Job → ℕ) → StandsFor executive left [] []) }
    {
        let tasks = tasks_of(alloc, set)?;
        let floors = floors_of(alloc, set, &tasks)?;
        let none = LastJob {
            number: 0,
            arrival: 0,
        };
        let releases = vec![in alloc; none; tasks.len()]?;
        let ready = Ready::with_room(alloc, jobs)?;
        Ok(Executive {
            tasks,
            floors,
            releases,
            ready,
            clock: 0,
        })
    }

    /// The number of the tick that comes next, counted from 0.
    pub fn now(&self) -> u64
        ensures { result ≡ self.now.clock }
    {
        self.clock
    }

    /// How many more jobs there is room for.
    pub fn spare(&self) -> usize
        ensures { result ≡ self.now.spare }
    {
        self.ready.spare()
    }

    /// Releases a job at the next tick. The caller shows that there is room, that the job's task is in the set, and that the job
    /// comes next: it has the number after that of the task's last released job, which came a period ago or more, or 1 where none
    /// was released.
    pub fn release(&mut self, job: Job)
        requires room { 1 ≤ self.old.spare }
        requires known { IsKnown self.old.tasks job }
        requires next { IsNextJob self.old job }
        ensures tasks { self.new.tasks ≡ self.old.tasks }
        ensures entries { HasOneMore self.old.entries (released self.old.tasks self.old.clock job) self.new.entries }
        ensures spare { self.new.spare + 1 ≡ self.old.spare }
        ensures now { self.new.clock ≡ self.old.clock }
        ensures releases { self.new.releases ≡ slice_set self.old.releases (job.task - 1) (record { number = job.number; arrival = self.old.clock }) }
        ensures stands { GoesOnWith self.old self.new job }
    {
        let place = job.task as usize - 1;
        let deadline = self.tasks[place].deadline(self.clock);
        self.releases[place] = LastJob {
            number: job.number,
            arrival: self.clock,
        };
        self.ready.push(Entry {
            deadline,
            begun: false,
            arrival: self.clock,
            task: job.task,
            number: job.number,
        });
    }

    /// Whether no job waits: each that was released has ended. Takes constant time.
    pub fn is_idle(&self) -> bool
        ensures { IsTrue result ↔ (self.now.entries ≡ []) }
    {
        self.ready.least().is_none()
    }

    /// Goes on to a tick without a tick to any job. The caller shows that no job waits, that the tick isn't before the next one, and
    /// that at most 2^63 ticks go by. Takes constant time, however many ticks go by.
    pub fn idle_until(&mut self, tick: u64)
        requires idle { self.old.entries ≡ [] }
        requires later { self.old.clock ≤ tick }
        requires clock { tick ≤ 2 ^ 63 }
        ensures at { self.new ≡ at_tick tick self.old }
        ensures stands { IdlesTo self.old self.new }
    {
        self.clock = tick;
    }

    /// Gives the next tick to the waiting job that comes first: by its deadline, which is lowered by the deadline floor of its resource once
    /// it has begun; begun before not begun; the arrival; the task; the number. The caller shows that fewer than 2^63 ticks went by,
    /// and that the body is the executive's. Takes constant time while the same job goes on.
    pub fn tick<B: Body>(&mut self, body: &mut B) -> Ticked
        requires clock { self.old.clock < 2 ^ 63 }
        requires body { IsBodyOf self.old (B.tasks body.old) (B.left body.old) (B.may_begin body.old) }
        ensures ticked { IsTick B.begins B.steps (B.left body.new) self.old self.new body.old body.new result }
        ensures tasks { self.new.tasks ≡ self.old.tasks }
        ensures releases { self.new.releases ≡ self.old.releases }
        ensures now { self.new.clock ≡ self.old.clock + 1 }
        ensures body { IsBodyOf self.new (B.tasks body.new) (B.left body.new) (B.may_begin body.new) }
        ensures stands { GoesOnTo self.old self.new (B.left body.old) (B.left body.new) result }
    {
        let tick = self.clock;
        self.clock += 1;
        let Some(entry) = self.ready.take_least() else {
            return Ticked::Idle;
        };
        let job = job_of(entry);
        match give_tick(body, job, entry.begun) {
            Turn::Last => return Ticked::Ran { job, ended: true },
            Turn::More => {}
        }
        let floor = self.floors[job.task as usize - 1];
        self.ready.push(after_tick(entry, tick, floor));
        Ticked::Ran { job, ended: false }
    }
}

/// The job of an entry.
fn job_of(entry: Entry) -> Job
    ensures { result ≡ job_in entry }
{
    Job {
        task: entry.task,
        number: entry.number,
    }
}

/// An entry after its job was given a tick, by the deadline floor of its resource.
#[tactic(auto, unfolding(yt_log::specs::EdfDdm::lowered))]
fn after_tick(entry: Entry, tick: u64, floor: Option<u64>) -> Entry
    requires clock { tick < 2 ^ 63 }
    requires floor { (f : ℕ) → floor ≡ Some f → f ≤ most_ticks }
    ensures { (tasks : List Task) → floor_of tasks (resource_in tasks entry) ≡ floor → result ≡ after_tick tasks tick entry }
{
    let deadline = match floor {
        Some(floor) if !entry.begun => entry.deadline.min(tick + 1 + floor),
        _ => entry.deadline,
    };
    Entry {
        deadline,
        begun: true,
        ..entry
    }
}

/// Gives a job one tick, and begins it first where it had not begun.
fn give_tick<B: Body>(body: &mut B, job: Job, begun: bool) -> Turn
    requires begun { begun ≡ true → 0 < B.left body.old job }
    requires idle { begun ≡ false → B.left body.old job ≡ 0 }
    requires may { begun ≡ false → B.may_begin body.old job }
    requires known { IsKnown (B.tasks body.old) job }
    requires free { begun ≡ false → IsFree (B.tasks body.old) (B.left body.old) job }
    ensures ran { Runs B.begins B.steps begun job body.old body.new }
    ensures given { GivesTick (B.tasks body.old) begun (B.left body.old) (B.left body.new) job }
    ensures last { (result ≡ Turn.Last) ↔ (B.left body.new job ≡ 0) }
    ensures tasks { B.tasks body.new ≡ B.tasks body.old }
    ensures may_still { MayStillBegin (B.may_begin body.old) (B.may_begin body.new) job }
{
    if !begun {
        body.begin(job);
    }
    body.step(job)
}

/// The tasks of a set.
fn tasks_of(alloc: Global, set: &TaskSet) -> Result<Vec<Task>, AllocError>
    ensures tasks { IfOk result (λ tasks. tasks.items ≡ set.now) }
    ensures set { IsTaskSet set.now }
{
    let count = set.len();
    let mut tasks = Vec::with_capacity(alloc, count as usize)?;
    for task in 0..count {
        tasks.push(set.task(task + 1))?;
    }
    Ok(tasks)
}

/// Of each task of a set, the deadline floor of its resource.
fn floors_of(alloc: Global, set: &TaskSet, tasks: &[Task]) -> Result<Vec<Option<u64>>, AllocError>
    ensures { IfOk result (λ floors. floors.items ≡ map (λ task. floor_of set.now task.resource) tasks.now) }
{
    tasks
        .iter()
        .map(|task| set.floor(task.resource))
        .collect(alloc)
}
