//! What a command answers: a verdict and the text that goes with it.
//!
//! A [`Verdict`] is what is found of the words and of the files' bytes; a [`Status`] is how the command ended, which also tells of reads,
//! writes and memory that failed. What is due is said in one way for every command: there is a cause, the verdict is the cause's, and the
//! text is one that tells it (`IsDue` in `specs/Due.antt`). This crate may not know of files, words, sets or graphs. Its contract: each
//! status has its exit status, and each verdict its status.
#![tactic(auto)]

mod answer;
mod status;
mod verdict;

pub use answer::{Answer, NOT_YET, not_yet};
pub use status::Status;
pub use verdict::Verdict;
