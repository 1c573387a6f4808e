//! From a graph's text to a graph that is accepted, with all its refusals.
//!
//! A text is lexed and parsed ([`read_graph`]); its names are resolved, its handlers compiled, its rates computed, and its tasks judged
//! ([`admit`]). Whatever fails first decides, and has its line. This crate may not know of files, words, logs or runs, nor of what is asked
//! about a graph: a command composes its own causes behind `TreeCause` and `GraphCause` (`specs/Trees.antt`, `specs/Causes.antt`). Its
//! contract: [`read_graph`] gives the tree of the text, or the answer that is due to it whatever is asked about its tree
//! (`IsReadingOf` in `specs/Admissions.antt`); [`admit`] gives the accepted graph, the graph whose tasks don't fit with the reason, or the
//! answer that is due to it whatever is asked about its graph (`IsAdmissionOf`); [`graph_labels`] names a graph's ports, and
//! [`unfit_graph_answer`] answers a graph whose tasks do not fit.
#![tactic(auto)]

mod admission;
mod calls;
mod judging;
mod labels;
mod lines;
mod reading;
mod unfit;

pub use admission::{Admission, admit};
pub use labels::graph_labels;
pub use reading::{Reading, read_graph};
pub use unfit::unfit_graph_answer;
