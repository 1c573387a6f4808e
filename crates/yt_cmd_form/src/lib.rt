//! The command `form`: the canonical text of a graph.
//!
//! This crate may not know of names, costs, rates or tasks, nor of files and words. Its contract: what [`form_answer`] gives is due to the
//! graph's text by its cause (`specs/Form.antt`).
#![tactic(auto)]

mod form;

pub use form::form_answer;
