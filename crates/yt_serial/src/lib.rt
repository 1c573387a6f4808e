//! What a graph means, and what is promised of its runs: definitions and laws.
//!
//! Serial handling takes the messages whole, one at a time, along an order of jobs. The definitions say what it makes of a graph and
//! a trace, in which order the jobs of a log begin, and when a log and output lines tell the run of a graph. There is no code here
//! but types. This crate may not know of texts, of an executive, or of how several messages are handled at once. Its contract:
//! along every order the plan of serial handling is legal for the graph's tasks, with no more messages than the chains of sources
//! allow ([`plans_are_legal`], [`log_plans_are_legal`], [`messages_are_apart`], [`messages_are_bounded`]); the variables stay after the end
//! of a log ([`variables_stay`]); and what the rules of a run are ([`run_rules_are_exact`]).
#![tactic(auto)]

mod laws;
mod shown;

pub use laws::{
    log_plans_are_legal, messages_are_apart, messages_are_bounded, plans_are_legal,
    run_rules_are_exact, variables_stay,
};
pub use shown::{OutLine, Outs};
