//! Tests of channels (`yt_chan`).
//!
//! This crate has nothing but tests, and no crate stands on it. It knows the public calls of that crate alone. Its tests show
//! what no clause says: that a call ends well where memory suffices, and that its answer is the one worked out by hand.
#![tactic(auto)]

#[cfg(test)]
mod channels;
#[cfg(test)]
mod wide;
