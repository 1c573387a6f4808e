//! Sets whose tasks and resources have names.
ghost use Rattle.std.specs.Prelude.{◌≡◌, ◌≤◌, length, Some};
ghost use Rattle.std.specs.List.{All};
ghost use Rattle.yt_list.specs.Numbered.{numbered};
ghost use Rattle.yt_set.specs.NamedTasks.{HasNameLength, IsNamed};
ghost use Rattle.yt_set.specs.Tasks.{IsTaskSet};

use crate::set::TaskSet;
use std::marker::Model;
use yt_list::{Name, Names};

/// A set with the name of each task, and of each resource that a task is under. A contract sees the tasks and both lists of
/// names.
#[derive(Drop)]
pub struct NamedSet {
    tasks: TaskSet,
    labels: Names,
    groups: Names,
}

impl Model for NamedSet {
    ghost use Rattle.yt_set.specs.NamedTasks.{NamedTasks, IsNamed};

    ghost Value = { NamedTasks };

    ghost view = { λ n. record { tasks = n.tasks; labels = n.labels; groups = n.groups } };

    ghost invariant = { λ n. IsNamed (record { tasks = n.tasks; labels = n.labels; groups = n.groups }) };
}

impl NamedSet {
    /// The set with these names.
    pub(crate) fn new(tasks: TaskSet, labels: Names, groups: Names) -> Self
        requires { IsNamed (record { tasks = tasks; labels = labels; groups = groups }) }
        ensures { result ≡ record { tasks = tasks; labels = labels; groups = groups } }
    {
        NamedSet {
            tasks,
            labels,
            groups,
        }
    }

    /// The tasks. Whatever the set, each task has a name, as has each resource that a task is under, and each name has from 1 to
    /// 65 bytes.
    pub fn set(&self) -> &TaskSet
        ensures set { result.now ≡ self.now.tasks }
        ensures labelled { length self.now.labels ≡ length self.now.tasks }
        ensures labels { All HasNameLength self.now.labels }
        ensures grouped { All (λ task. task.resource ≤ length self.now.groups) self.now.tasks }
        ensures groups { All HasNameLength self.now.groups }
    {
        &self.tasks
    }

    /// The names of the tasks in order, as a slice to go over. The name of the task of number 1 stands at place 0.
    pub fn labels(&self) -> &[Name]
        ensures labels { result.now ≡ self.now.labels }
        ensures labelled { length result.now ≡ length self.now.tasks }
        ensures in_range { IsTaskSet self.now.tasks }
        ensures lengths { All HasNameLength result.now }
    {
        self.labels.as_slice()
    }

    /// The name of a task by its number from 1. The caller shows that it is in the set.
    #[tactic(auto, using(yt_list::proofs::Lemmas::numbered_place))]
    pub fn label(&self, task: u32) -> &[u8]
        requires positive { 1 ≤ task }
        requires within { task ≤ length self.now.tasks }
        ensures label { numbered self.now.labels task ≡ Some result.now }
        ensures length { HasNameLength result.now }
    {
        self.labels.at(task as usize - 1).as_slice()
    }

    /// The name of a resource by its number from 1. The caller shows that there is one, as there is for each task's.
    #[tactic(auto, using(yt_list::proofs::Lemmas::numbered_place))]
    pub fn group(&self, resource: u32) -> &[u8]
        requires positive { 1 ≤ resource }
        requires within { resource ≤ length self.now.groups }
        ensures group { numbered self.now.groups resource ≡ Some result.now }
        ensures length { HasNameLength result.now }
    {
        self.groups.at(resource as usize - 1).as_slice()
    }
}
