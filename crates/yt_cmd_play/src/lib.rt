//! What a play of a plan answers: the schedule that the rule makes of the plan's jobs, or the first job that misses its deadline.
//!
//! It reads a set and a plan, and has the plan played. This crate may not know of words, files or graphs, nor how a plan is played and what is
//! printed of that. Its contract is that of [`play_answer`]: the verdict has its cause, by the texts of the set and of the plan (`PlayCause`
//! in `specs/Causes.antt`), and the text is what that cause asks for.
#![tactic(auto)]

mod answer;

pub use answer::play_answer;
