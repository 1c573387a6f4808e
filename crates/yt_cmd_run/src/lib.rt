//! What a run of a graph on a trace answers, and one that is stopped at a tick.
//!
//! `reading` reads a graph and a trace, and refuses what can't be run, by the lines of `lines`; `run` and `stop` answer, and `text` and
//! `stop_text` make what is printed, by what `names` names. This crate may not know of words or files, nor how a graph is admitted or run. Its
//! contract is that of [`run_answer`] and [`stop_answer`]: the verdict has its cause, by the texts of the graph and of the trace (`RunCause`
//! in `specs/Causes.antt`), and the text is what that cause asks for: of a run its text, which is read back as a log and lines of which all
//! is promised (`IsRun` in `specs/Runs.antt`), and of a stop that of the variables at the tick (`IsStop`).
#![tactic(auto)]

mod lines;
mod names;
mod reading;
mod run;
mod stop;
mod stop_text;
mod text;

pub use run::run_answer;
pub use stop::stop_answer;
