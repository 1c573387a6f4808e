//! Tests of how texts of graphs are read: their tokens (`yt_lexer`), and the trees that they spell (`yt_parser`).
//!
//! This crate has nothing but tests, and no crate stands on it. It knows the public calls of those crates alone. Its tests show
//! what no clause says: that memory suffices for ordinary texts, and that the answers are those worked out by hand.
#![tactic(auto)]

#[cfg(test)]
mod lexer;
#[cfg(test)]
mod parser;
#[cfg(test)]
mod texts;
