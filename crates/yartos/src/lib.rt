//! The top call: judges the words and the files that they name, and writes the answer.
//!
//! `words` tells what words ask for, and `files` reads what they name. `command` gives the bytes to the crate of the command, which
//! answers them, and `write` writes the answer's text line by line. This crate may not know what a graph, a set, a trace or a plan is:
//! each command has a crate of its own, which says what is due to it and why.
//! Its contract is that of [`yartos`]: each status has its cause, and what is written is what is due and nothing else. No two statuses are
//! due to words and files, and it can't be that none is, unless a file can't be read ([`one_status_is_due`], [`some_status_is_due`]).
#![tactic(auto)]

mod command;
mod files;
mod laws;
mod top;
mod words;
mod write;

pub use laws::{one_status_is_due, some_status_is_due};
pub use top::yartos;
pub use yt_answer::Status;
