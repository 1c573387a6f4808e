//! The canonical text of a graph.
//!
//! This crate knows nothing of how tokens are read, of what names mean, of costs or of schedules. Its contract:
//! [`print_graph`] gives the tree's canonical text, whose tokens spell the same tree but for places.
#![tactic(auto)]

mod pieces;
mod print;
mod print_expr;
mod print_laws;
mod print_stmt;

pub use print::print_graph;
pub use print_laws::printed_is_read;
