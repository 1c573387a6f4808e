//! Laws of rates: which fault of a graph's rates decides.
//!
//! There is no code here but laws. The fault that decides is the first cause of the nearest port with one, by the distance from the input
//! and then by number, and none decides exactly where all ports are within their rates ([`rate_fault_is_first`]). This crate may not know of
//! texts, logs or runs. Its contract: the statements in `specs/`.
#![tactic(auto)]

mod laws;

pub use laws::rate_fault_is_first;
