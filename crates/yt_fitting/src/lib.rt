//! What is answered of task sets: whether their texts can be read, and whether their tasks fit.
//!
//! A set's text is read, or its first line at fault is told. Tasks that don't fit, of a set or of a graph, get one answer, by the reason: a
//! hyperperiod that is too great is refused; a load that doesn't fit, and a task that lacks room, are shown by arrivals that must miss a deadline. Tasks that fit are accepted with
//! their load. This crate may not know of graphs, files or words. Its contract: the answer is due by its cause, as `specs/Loads.antt` and
//! `specs/Sets.antt` say, where the command that asks says what is due to a set that is read and to tasks that fit.
#![tactic(auto)]

mod accepted;
mod faults;
mod kind;
mod labels;
mod load_text;
mod overload;
mod set_reading;
mod unfit;

pub use accepted::accepted_answer;
pub use faults::fault_line;
pub use kind::{FileKind, Kind};
pub use labels::task_label;
pub use set_reading::{SetReading, read_named_set};
pub use unfit::unfit_answer;
