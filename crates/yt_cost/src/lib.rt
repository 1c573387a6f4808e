//! From handlers' trees to instructions, and the most that a handling can take and send.
//!
//! This crate may not know of text or schedules. Its contract: [`compile`] answers for each port of a graph its code, its
//! greatest cost and its greatest number of sends on each out, or the first fault of a port that passes a limit
//! (`cost_fault` in `specs/Faults.antt`). The code is valid, it uses variables of the port's process alone, and executed
//! alone it does what the handler means, tick by tick (`MeansPort` in `specs/CodeAlone.antt`).
#![tactic(auto)]

mod codes;
mod compiling;
mod emit;
mod fault;
mod laws;
mod limits;
mod sends;
mod ticks;

pub use codes::Codes;
pub use compiling::compile;
pub use fault::CostFault;
pub use laws::{
    compiled_code_is_valid, compiled_code_means_its_port, compiled_code_uses_own_variables,
    steps_keep_to_variables,
};
pub use limits::{MOST_SENDS, MOST_TICKS};
