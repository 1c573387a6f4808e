//! Tests of what is done with trees of graphs: they are opened (`yt_graph`), printed (`yt_printer`), and their names looked up
//! (`yt_names`).
//!
//! This crate has nothing but tests, and no crate stands on it. It knows the public calls of those crates alone. Its tests show
//! what no clause says: that memory suffices for ordinary trees, and that the answers are those worked out by hand.
#![tactic(auto)]

#[cfg(test)]
mod graph;
#[cfg(test)]
mod names;
#[cfg(test)]
mod printer;
#[cfg(test)]
mod trees;
