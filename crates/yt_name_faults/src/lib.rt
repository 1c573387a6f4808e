//! The faults of a graph's names and numbers, and which one decides.
//!
//! This crate knows nothing of text, where a place is what the tree says, nor of the graph that names stand for. Its
//! contract: [`first_fault`] finds the fault that decides, if there is one, and [`look_up`] what a path leads to. The fault
//! of a cycle is that of chains which reach a port again: [`cycles_are_told`].
#![tactic(auto)]

mod chains;
mod decl_faults;
mod env;
mod expr_faults;
mod fault;
mod handler_faults;
mod index;
mod item_faults;
mod laws;
mod least;
mod part;
mod paths;
mod port_faults;
mod ranges;
mod room;
mod rules;
mod target;

pub use env::place_of_op;
pub use fault::{LimitKind, NameFault};
pub use index::Index;
pub use item_faults::first_fault;
pub use laws::cycles_are_told;
pub use part::{Part, PortPart};
pub use paths::look_up;
pub use room::Room;
pub use target::Target;
