//! The list of jobs that wait for the processor, in order of urgency.
//!
//! This crate knows nothing of plans, logs or tasks: an entry is five values, and the order of entries goes by them alone. Its
//! contract: [`Ready::least`] and [`Ready::take_least`] give the entry that none comes before (`IsLeast` in `specs/Order.antt`),
//! and a push within the room never fails.
#![tactic(auto)]

mod entry;
mod ready;

pub use entry::Entry;
pub use ready::Ready;
