//! Tests of sets (`yt_set`), of the texts of sets and plans (`yt_log`), of rates, and of which graphs are accepted (`yt_rates`).
//!
//! This crate has nothing but tests, and no crate stands on it. It knows the public calls of those crates alone. Its tests show
//! what no clause says: that a call ends well where memory suffices, and that its answer is the one worked out by hand.
#![tactic(auto)]

#[cfg(test)]
mod accepted;
#[cfg(test)]
mod plan_texts;
#[cfg(test)]
mod rated;
#[cfg(test)]
mod sets;
