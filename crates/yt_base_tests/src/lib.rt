//! Tests of the lowest crates: of bytes and numbers (`yt_base`), of lists (`yt_list`), of tables of names (`yt_table`), of files and outputs
//! (`yt_io`), and of the jobs that wait (`yt_ready`).
//!
//! This crate has nothing but tests, and no crate stands on it. It knows the public calls of those crates alone. Its tests show
//! what no clause says: that a call ends well where memory suffices, and that its answer is the one worked out by hand.
#![tactic(auto)]

#[cfg(test)]
mod bytes;
#[cfg(test)]
mod files;
#[cfg(test)]
mod lists;
#[cfg(test)]
mod ready;
#[cfg(test)]
mod tables;
