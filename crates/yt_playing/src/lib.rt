//! Plays of legal plans: the schedule that the rule makes of a plan's jobs, or the first job that misses its deadline.
//!
//! `play` plays a plan and looks for a miss; `text` makes what is printed. This crate may not know of words, files, graphs or the text of
//! plans, nor how a play is made or judged. Its contract is that of [`played_answer`]: the verdict is that of how the play ends (`Ending` in
//! `specs/Plays.antt`), and the text shows it.
#![tactic(auto)]

mod play;
mod text;

pub use play::played_answer;
