//! Judging logs: what they miss, and which rule they break first.

mod broken;
mod counts;
mod heads;
mod miss;
mod stretch;

pub use broken::{Broken, Rule, first_broken};
pub use miss::{Miss, first_miss};
