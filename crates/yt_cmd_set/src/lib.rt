//! The command that judges a task set: is it read, and do its tasks fit?
//!
//! It knows the bytes of one file, and may not know of words, other files, graphs or runs. Its contract: the answer is due by its cause,
//! which `specs/Judged.antt` says: the set has a line at fault, or its tasks don't fit, or they are accepted.
#![tactic(auto)]

mod judge;

pub use judge::set_answer;
