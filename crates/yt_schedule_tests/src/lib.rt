//! Tests of what fits (`yt_fits`), of patterns of arrivals (`yt_witness`), and of plans, logs and plays (`yt_log`, `yt_exec`).
//!
//! This crate has nothing but tests, and no crate stands on it. It knows the public calls of those crates alone. Its tests show
//! what no clause says: that a call ends well where memory suffices, and that its answer is the one worked out by hand.
#![tactic(auto)]

#[cfg(test)]
mod fitting;
#[cfg(test)]
mod fixtures;
#[cfg(test)]
mod judging;
#[cfg(test)]
mod logs;
#[cfg(test)]
mod patterns;
#[cfg(test)]
mod plans;
#[cfg(test)]
mod plays;
