//! Rates of a graph: how often messages come to each port, and how long after its input's message each may come.
//!
//! This crate may not know of text, instructions or schedules. Its contract: [`rates`] answers for each port its period, its
//! start and the gaps of its outs (`specs/Rates.antt`), all within their limits, or the fault that decides (`rate_fault` in
//! `specs/Faults.antt`); [`task_set`] answers the graph's tasks (`tasks_of` in `specs/Tables.antt`); [`accept`] takes a graph
//! whose tasks fit (`IsAccepted` in `specs/Acceptance.antt`), and tells of every other why it doesn't (`IsCauseOf`).
#![tactic(auto)]

mod accepted;
mod accepting;
mod distances;
mod fault;
mod laws;
mod outs;
mod rating;
mod refused;
mod stream;
mod table;
mod tasks;

pub use accepted::Accepted;
pub use accepting::accept;
pub use fault::RateFault;
pub use laws::{rates_along_an_out, rates_of_an_input};
pub use rating::rates;
pub use refused::{AcceptCause, NotAccepted};
pub use stream::Stream;
pub use table::RateTable;
pub use tasks::task_set;
