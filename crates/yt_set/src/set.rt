//! Sets of tasks in range.
ghost use Rattle.std.specs.Prelude.{◌≡◌, ◌↔◌, ◌≤◌, length, Some, IfOk, IfErr, IsTrue, min, map};
ghost use Rattle.std.specs.List.{All, reduce};
ghost use Rattle.yt_list.specs.Numbered.{numbered};
ghost use Rattle.yt_set.specs.Tasks.{IsTask, IsTaskSet, floor_of, users_of, within};
ghost use Rattle.yt_set.specs.SetText.{in_range};
ghost use Rattle.yt_set.specs.Limits.{most_tasks};

use crate::task::Task;
use std::marker::Model;

/// How many tasks a set has at most.
pub const MOST_TASKS: usize = 64;

/// The greatest cost and the greatest period of a task, in ticks.
pub const MOST_TICKS: u64 = 1_000_000;

/// At most 64 tasks, each with a cost and a period from 1 to 1,000,000 ticks. A contract sees the list of them.
#[derive(Debug, Drop)]
pub struct TaskSet {
    tasks: Vec<Task>,
}

impl Model for TaskSet {
    ghost use Rattle.std.specs.Prelude.{List};
    ghost use Rattle.yt_set.specs.declared.task.Task.{Task};
    ghost use Rattle.yt_set.specs.Tasks.{IsTaskSet};

    ghost Value = { List Task };

    ghost view = { λ s. s.tasks.items };

    ghost invariant = { λ s. IsTaskSet s.tasks.items };
}

impl TaskSet {
    /// The set of these tasks, with no memory. `Err` hands the list back, and comes exactly where it has more than 64 tasks, or
    /// one with a cost or a period out of its range.
    pub fn new(tasks: Vec<Task>) -> Result<Self, Vec<Task>>
        ensures ok { IfOk result (λ set. set ≡ tasks.items) }
        ensures in_range { IfOk result (λ set. IsTaskSet set) }
        ensures err { IfErr result (λ list. list ≡ tasks) }
        ensures out_of_range { IfErr result (λ list. IsTaskSet list.items → ⊥) }
    {
        if tasks.len() <= MOST_TASKS && all_in_range(&tasks) {
            Ok(TaskSet { tasks })
        } else {
            Err(tasks)
        }
    }

    /// The set of tasks that the caller shows to be in range, with no memory.
    pub fn of(tasks: Vec<Task>) -> Self
        requires { IsTaskSet tasks.items }
        ensures { result ≡ tasks.items }
    {
        TaskSet { tasks }
    }

    /// How many tasks there are. Whatever the set, it is in range.
    pub fn len(&self) -> u32
        ensures len { result ≡ length self.now }
        ensures few { result ≤ most_tasks }
        ensures in_range { IsTaskSet self.now }
    {
        self.tasks.len() as u32
    }

    /// The task of a number, from 1. The caller shows that it is in the set.
    #[tactic(auto, using(yt_list::proofs::Lemmas::numbered_place))]
    pub fn task(&self, task: u32) -> Task
        requires positive { 1 ≤ task }
        requires within { task ≤ length self.now }
        ensures value { numbered self.now task ≡ Some result }
        ensures in_range { IsTask result }
    {
        self.tasks[task as usize - 1]
    }

    /// The deadline floor of a resource: within how many ticks the most urgent of the tasks under it is due. `None` comes exactly
    /// where no task is under it, and for 0, which is no resource.
    pub fn floor(&self, resource: u32) -> Option<u64>
        ensures { result ≡ floor_of self.now resource }
    {
        if resource == 0 {
            return None;
        }
        least_within(&self.tasks, resource)
    }
}

/// Within how many ticks the most urgent of the tasks with this resource is due; `None` exactly where there are none.
fn least_within(tasks: &[Task], resource: u32) -> Option<u64>
    ensures { result ≡ reduce min (map within (users_of tasks.now resource)) }
{
    tasks
        .iter()
        .filter(|task| task.resource == resource)
        .map(|task| task.within())
        .min()
}

/// Whether each task has a cost and a period in range.
fn all_in_range(tasks: &[Task]) -> bool
    ensures { IsTrue result ↔ All IsTask tasks.now }
{
    tasks
        .iter()
        .all(|task| in_range(task.cost) && in_range(task.period))
}

/// Whether it is from 1 to 1,000,000 ticks.
pub(crate) fn in_range(ticks: u64) -> bool
    ensures { result ≡ in_range ticks }
{
    1 <= ticks && ticks <= MOST_TICKS
}
