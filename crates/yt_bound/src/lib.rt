//! The bound of a run: how many jobs and output lines it comes to at most, by the trace's messages and what each job may send.
//!
//! This crate may not know of texts, of executives or of channels. Its contract: the exact bound ([`job_bound`], `specs/Bounds.antt`), and that no run
//! passes it ([`runs_are_bounded`]).
#![tactic(auto)]

mod bound;
mod counted;
mod laws;

pub use bound::{job_bound, most_jobs, most_lines};
pub use laws::{runs_are_bounded, worked_bounds};
