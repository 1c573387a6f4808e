//! Tests of handlers: what handling a message does (`yt_mean`), code and the machine that steps through it (`yt_code`),
//! the code, costs and sends of a graph's ports (`yt_cost`), and what calls operators (`yt_graph`).
//!
//! This crate has nothing but tests, and no crate stands on it. It knows the public calls of those crates alone. Its tests show
//! what no clause says: that a call ends well where memory suffices, and that its answer is the one worked out by hand.
#![tactic(auto)]

#[cfg(test)]
mod arithmetic;
#[cfg(test)]
mod codes;
#[cfg(test)]
mod costs;
#[cfg(test)]
mod executions;
#[cfg(test)]
mod graphs;
#[cfg(test)]
mod machines;
#[cfg(test)]
mod meanings;
#[cfg(test)]
mod nested;
#[cfg(test)]
mod operators;
#[cfg(test)]
mod trees;
