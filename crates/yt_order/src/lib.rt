//! Orders: lists of numbers in the order of words, lists put in order, and lists of which each element comes before those in front of
//! it.
//!
//! Here are definitions and what is proved of them, of elements of any type; there is no code. This crate may not know of tasks, jobs or
//! messages. Its contract: the laws of `specs/Laws.antt` and `specs/Sorting.antt`; what is proved of lists in order stands in `proofs/Lemmas.antt`.
#![tactic(auto)]

mod laws;

pub use laws::{sorting_sorts, two_numbers_compare, words_are_ordered};
