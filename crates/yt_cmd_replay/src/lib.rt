//! What the replay of a set answers: the play of the arrivals that show that its tasks don't fit, or what judging it answers where they do.
//!
//! It reads a set and judges it. If its tasks don't fit it has the plan of the pattern that shows it played, in which a job misses its deadline.
//! It knows the bytes of one file, and may not know of words, other files, graphs or runs, nor how a plan is played and what is printed of that.
//! Its contract: the answer is due by its cause, which `specs/Causes.antt` says.
#![tactic(auto)]

mod answer;

pub use answer::replay_answer;
