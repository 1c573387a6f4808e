//! Tests of the two ways to judge the room that jobs leave (`interval_walk` and `interval_plain` of `yt_fits`).
//!
//! This crate has nothing but tests, and no crate stands on it. Both calls have one contract; the tests show that they end and answer the same
//! on sets of many shapes.
#![tactic(auto)]

#[cfg(test)]
mod walks;
