//! Reads a set line by line.
ghost use Rattle.std.specs.Prelude.{◌≡◌, ◌<◌, ◌≤◌, length, IfOk, MatchResult, Ok, Err, OnOk, IsTrue, false};
ghost use Rattle.yt_base.specs.Lines.{fields_of};
ghost use Rattle.yt_table.specs.Tables.{is_among};
ghost use Rattle.yt_set.specs.Limits.{most_tasks};
ghost use Rattle.yt_set.specs.Inside.Reading.{with_new};
ghost use Rattle.yt_set.specs.SetText.{in_range, is_group, is_name, judged, no_tasks, number_of, with_group};

use crate::named::NamedSet;
use crate::read::LineFault;
use crate::set::{MOST_TASKS, TaskSet};
use crate::task::Task;
use crate::task_line::{NewTask, TaskLine, ticks};
use std::alloc::{AllocError, Global};
use std::marker::Model;
use yt_base::{LineError, LineReader};
use yt_table::NameSet;

/// What the lines so far say. A contract sees the tasks, their names, and the names of resources in order of first use.
#[derive(Drop)]
pub(crate) struct Reader<'a> {
    tasks: Vec<Task>,
    labels: NameSet<'a>,
    groups: NameSet<'a>,
}

impl<'a> Model for Reader<'a> {
    ghost use Rattle.yt_set.specs.NamedTasks.{NamedTasks, IsNamed};

    ghost Value = { NamedTasks };

    ghost view = { λ r. record { tasks = r.tasks.items; labels = r.labels; groups = r.groups } };

    ghost invariant = { λ r. IsNamed (record { tasks = r.tasks.items; labels = r.labels; groups = r.groups }) };
}

impl<'a> Reader<'a> {
    /// No line yet.
    pub(crate) fn new(alloc: Global) -> Self
        ensures { result ≡ no_tasks }
    {
        Reader {
            tasks: Vec::new(alloc),
            labels: NameSet::new(alloc),
            groups: NameSet::new(alloc),
        }
    }

    /// The task that a line says, which isn't skipped, or its first fault.
    fn judge(&self, line: &'a [u8]) -> Result<NewTask<'a>, LineFault>
        ensures answer { MatchResult result
            (λ task. judged self.now (fields_of line.now) ≡ Ok (with_new self.now task))
            (λ fault. judged self.now (fields_of line.now) ≡ Err fault) }
        ensures cost { IfOk result (λ task. IsTrue (in_range task.cost)) }
        ensures period { IfOk result (λ task. IsTrue (in_range task.period)) }
        ensures name { IfOk result (λ task. IsTrue (is_name task.name.now)) }
        ensures group { IfOk result (λ task. IsTrue (is_group task.group.now)) }
        ensures other { IfOk result (λ task. is_among task.name.now self.now.labels ≡ false) }
        ensures room { IfOk result (λ task. length self.now.tasks < most_tasks) }
    {
        let Some(texts) = TaskLine::new(line) else {
            return Err(LineFault::Form);
        };
        let cost = ticks(texts.cost)?;
        let period = ticks(texts.period)?;
        if !texts.has_names() {
            return Err(LineFault::Name);
        }
        if self.labels.contains(texts.name) {
            return Err(LineFault::Twice);
        }
        let Some(cost) = cost else {
            return Err(LineFault::Cost);
        };
        let Some(period) = period else {
            return Err(LineFault::Period);
        };
        if self.tasks.len() == MOST_TASKS {
            return Err(LineFault::Many);
        }
        Ok(NewTask {
            name: texts.name,
            cost,
            period,
            group: texts.group,
        })
    }

    /// Adds a task behind those that are there.
    fn add(self, task: NewTask<'a>) -> Result<Self, AllocError>
        requires cost { IsTrue (in_range task.cost) }
        requires period { IsTrue (in_range task.period) }
        requires name { IsTrue (is_name task.name.now) }
        requires group { IsTrue (is_group task.group.now) }
        requires other { is_among task.name.now self.labels ≡ false }
        requires room { length self.tasks < most_tasks }
        ensures { IfOk result (λ read. read ≡ with_new self.entry task.entry) }
    {
        let Reader {
            mut tasks,
            mut labels,
            mut groups,
        } = self;
        let resource = number_of(&mut groups, task.group)?;
        labels.insert(task.name)?;
        tasks.push(Task {
            cost: task.cost,
            period: task.period,
            resource,
        })?;
        Ok(Reader {
            tasks,
            labels,
            groups,
        })
    }

    /// The set that all lines say.
    pub(crate) fn finish(self, alloc: Global) -> Result<NamedSet, AllocError>
        ensures { IfOk result (λ named. named ≡ self.entry) }
    {
        let labels = self.labels.to_names(alloc)?;
        let groups = self.groups.to_names(alloc)?;
        Ok(NamedSet::new(TaskSet::of(self.tasks), labels, groups))
    }
}

impl<'a> LineReader<'a> for Reader<'a> {
    type Fault = LineFault;

    ghost judged = { judged };

    fn read_line(self, line: &'a [u8]) -> Result<Self, LineError<LineFault>> {
        match self.judge(line) {
            Err(fault) => Err(LineError::Fault(fault)),
            Ok(task) => Ok(self.add(task)?),
        }
    }
}

/// The number of a resource by its name, from 1 in order of first use; 0 where the name is empty.
fn number_of<'a>(groups: &mut NameSet<'a>, group: &'a [u8]) -> Result<u32, AllocError>
    requires { length groups.old < most_tasks }
    ensures number { IfOk result (λ number. number ≡ number_of groups.old group.now) }
    ensures groups { OnOk result (groups.new ≡ with_group groups.old group.now) }
{
    if group.is_empty() {
        return Ok(0);
    }
    let seen = groups.insert_full(group)?;
    Ok(seen.0 as u32 + 1)
}
