//! Tests of graphs and traces that are made (`yt_gen`), and of what reads them.
//!
//! This crate has nothing but tests, and no crate stands on it. It knows the public calls of that crate, and of those that read a graph's
//! and a trace's text, alone. Its tests show what no clause says: that a call ends well where memory suffices, that its text is the one
//! worked out by hand, that each graph that is made is accepted, and that its trace can be read.
#![tactic(auto)]

#[cfg(test)]
mod graphs;
#[cfg(test)]
mod made;
#[cfg(test)]
mod traces;
