//! Laws of runs' texts: that they can be read back.
//!
//! There is no code here but laws. Each well-formed graph has readable names ([`names_are_readable`]): so what the readers of run texts
//! ask of names is never more than what a graph has. Handlers, and so serial handling, make numbers of 64 bits of such numbers
//! ([`handlers_keep_values`], [`serial_handling_keeps_values`]). So the text of each promised run is read back as its log and its lines
//! ([`runs_read_back`]). This crate may not know of the executive or of how runs are made. Its contract: the statements in `specs/`.
#![tactic(auto)]

mod laws;

pub use laws::{
    handlers_keep_values, names_are_readable, runs_read_back, serial_handling_keeps_values,
};
