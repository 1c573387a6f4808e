//! The run of a graph on a trace, tick by tick.
//!
//! [`run`] gives the told run: the log and the output lines of which all is promised that is promised of a run (`IsPromisedRun`, of the
//! crate `yt_serial`). [`vars_at`] gives the variables at a tick of it, in the middle of handlers too (`AreVariablesAt`). Both go through
//! one loop: an executive gives each tick to a job of the handlers, and what comes at the tick is placed before. Stretches in which no job
//! waits are skipped.
//!
//! This crate may not know of texts. Its contract: the definitions of `specs/`.
#![tactic(auto)]

mod laws;
mod limits;
mod running;
mod runs;

pub use limits::MOST_JOBS_AND_LINES;
pub use runs::{run, vars_at};
