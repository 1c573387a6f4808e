//! Arrivals that show that a set of tasks doesn't fit.
//!
//! For a reason that a set doesn't fit, [`witness`] gives a pattern: arrivals with which every lawful, work-conserving and
//! exclusive schedule that is told up to the pattern's end misses a deadline. [`arrive`] tells them task by task, without
//! memory, and [`plan_of`] makes the plan of them all. This crate may not know of text, graphs or how an executive works. Its
//! contract: the pattern is the reason's, its plan is legal and must miss, and the arrivals of each task are those that the plan is
//! made of.
#![tactic(auto)]

mod arrivals;
mod merge;
mod pattern;
mod plan;

pub use arrivals::{Arrivals, arrive};
pub use pattern::{Pattern, load_pattern, room_pattern, witness};
pub use plan::{PatternFault, plan_of};
