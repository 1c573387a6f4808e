//! The tasks of a set by their names.
ghost use Rattle.std.specs.Prelude.{◌≡◌, ◌≤◌, length, IfOk, IfSome};
ghost use Rattle.yt_set.specs.Tasks.{IsTaskSet};
ghost use Rattle.yt_table.specs.Tables.{first_of};

use std::alloc::{AllocError, Global};
use std::marker::Model;
use yt_list::Name;
use yt_set::{NamedSet, TaskSet};
use yt_table::NameTable;

/// The tasks of a set, which are found by their names. A contract sees the set.
#[derive(Drop)]
pub(crate) struct TaskNames<'a> {
    set: &'a NamedSet,
    table: NameTable<'a, Name>,
}

impl<'a> Model for TaskNames<'a> {
    ghost use Rattle.yt_set.specs.NamedTasks.{NamedTasks};
    ghost use Rattle.yt_log.specs.Inside.PlanReading.{IsNumbered};

    ghost Value = { NamedTasks };

    ghost view = { λ n. n.set.now };

    ghost invariant = { λ n. IsNumbered n.set.now n.table };
}

impl<'a> TaskNames<'a> {
    /// The tasks of this set.
    pub(crate) fn new(alloc: Global, set: &'a NamedSet) -> Result<Self, AllocError>
        ensures { IfOk result (λ names. names ≡ set.now) }
    {
        let table = NameTable::new(alloc, set.labels())?;
        Ok(TaskNames { set, table })
    }

    /// The set. Whatever it is, it is in range.
    pub(crate) fn set(&self) -> &TaskSet
        ensures set { result.now ≡ self.now.tasks }
        ensures in_range { IsTaskSet self.now.tasks }
    {
        self.set.set()
    }

    /// The number of the first task of a name, from 1; `None` exactly where no task has it.
    pub(crate) fn find(&self, name: &[u8]) -> Option<u32>
        ensures number { result ≡ first_of name.now 1 self.now.labels }
        ensures in_set { IfSome result (λ task. (1 ≤ task) × (task ≤ length self.now.tasks)) }
        ensures in_range { IsTaskSet self.now.tasks }
    {
        let index = self.table.find(name)?;
        Some(index as u32 + 1)
    }
}
