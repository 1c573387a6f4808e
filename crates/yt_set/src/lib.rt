//! Sets of sporadic tasks, and their texts.
//!
//! A task has a greatest cost, a least time between its jobs, and at most one resource. The definitions say what tasks ask of
//! the processor and when a set fits. This crate may not know of graphs, runs or schedules. Its contract: a [`TaskSet`] is in
//! range, and [`read_set`] answers the set that a text says (`set_of` in `specs/SetText.antt`), or its first fault.
#![tactic(auto)]

mod laws;
mod named;
mod put;
mod read;
mod reader;
mod set;
mod task;
mod task_line;

pub use laws::{hyperperiod_is_least, worked_loads};
pub use named::NamedSet;
pub use put::put_task;
pub use read::{LineFault, SetFault, read_set};
pub use set::{MOST_TASKS, MOST_TICKS, TaskSet};
pub use task::Task;
