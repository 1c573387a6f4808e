//! Tests of handlers of texts, from their tokens to their last tick: the plain interpreter (`yt_mean`) beside the machine
//! (`yt_code`, `yt_cost`); and both at the least and the greatest graphs.
//!
//! This crate has nothing but tests, and no crate stands on it. It knows the public calls of the crates that it tests alone. Its
//! tests show what no clause says: that a call ends well where memory suffices, and that its answer is the one worked out by hand.
#![tactic(auto)]

#[cfg(test)]
mod edges;
#[cfg(test)]
mod handlers;
