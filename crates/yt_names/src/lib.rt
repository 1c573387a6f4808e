//! From the syntax tree of a graph to the resolved graph, or its first fault of names.
//!
//! This crate knows nothing of text: a place is what the tree says. Its contract: [`resolve`] answers the graph that the
//! tree's names stand for, or the fault that decides. That graph is well formed: [`resolved_is_well_formed`].
#![tactic(auto)]

mod heads;
mod laws;
mod meant;
mod numbers;
mod resolve_expr;
mod resolve_handler;
mod resolve_port;
mod resolving;
mod scope;
mod uses_var;

pub use laws::resolved_is_well_formed;
pub use resolving::resolve;
pub use yt_name_faults::{LimitKind, NameFault, cycles_are_told};
