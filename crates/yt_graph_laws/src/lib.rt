//! Laws of graphs and of their texts: what handlers send, names that can be told apart, the fault that decides, and places, white space
//! and symbols of a text.
//!
//! There is no code here but laws. Each send of a handler has the width of its out ([`sends_have_their_width`]); the labels of a graph's
//! ports differ, and so do the names of its outputs, and none has a blank ([`names_are_apart`]); of several faults the one that decides is
//! there, and none comes before it ([`first_fault_is_first`]). In a text a place counts lines and bytes ([`places_count_lines`]); what is
//! passed over in front of a token is white space and comments ([`blanks_are_space_and_comments`]); and its symbols are exactly the marks
//! of the grammar, each read whole ([`symbols_are_marks`], [`symbols_are_only_marks`]). This crate may not know of rates, tasks, logs or
//! runs. Its contract: the statements in `specs/`.
#![tactic(auto)]

mod laws;

pub use laws::{
    blanks_are_space_and_comments, first_fault_is_first, names_are_apart, places_count_lines,
    sends_have_their_width, symbols_are_marks, symbols_are_only_marks,
};
