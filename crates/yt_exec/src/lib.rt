//! The executive: it releases jobs and gives each tick to the one that earliest deadline first with dynamic deadline modification
//! goes by; and plays of whole plans.
//!
//! What a job does in its ticks is a [`Body`]'s business: this crate may not know of graphs, messages or instructions. Its
//! contract: an executive with a body stands for a plan and a log (`StandsFor` in `specs/StandsFor.antt`), and goes on to do so
//! at each release and tick, with a log of the rule; [`play`] gives the rule's log of a legal plan.
#![tactic(auto)]

mod body;
mod counts;
mod executive;
mod plays;

pub use body::{Body, Turn};
pub use executive::{Executive, Ticked};
pub use plays::play;
