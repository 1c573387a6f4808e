//! The commands `tasks` and `check`: the tasks of a graph, and whether they fit.
//!
//! This crate may not know of traces, logs or runs, nor of files and words. Its contract: what [`tasks_answer`] and [`check_answer`] give
//! is due to the graph's text by its cause (`specs/Tasks.antt`, `specs/Check.antt`).
#![tactic(auto)]

mod check;
mod tasks;
mod tasks_text;

pub use check::check_answer;
pub use tasks::tasks_answer;
