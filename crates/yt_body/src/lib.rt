//! The body of a graph's run: the handlers of an accepted graph, with their machines, the variables and the messages on their way.
//!
//! [`wires_of`] gives the wires of a graph, which say where the messages of each out go; they are sound ([`wires_are_sound`]), so that
//! channels can be made of them. [`Handlers`] is the body that an executive steps: messages come to its ports, jobs begin with them and
//! have ticks, and what a job sends goes onto the wires when it has ended.
//!
//! This crate may not know of texts, traces or logs. Its contract: the definitions of `specs/`; what stays true of [`Handlers`] is
//! `IsSound`.
#![tactic(auto)]

mod handlers;
mod laws;
mod outs;
mod port_run;
mod starts;
mod wiring;

pub use handlers::Handlers;
pub use laws::wires_are_sound;
pub use port_run::{PortRun, PortStage};
pub use wiring::wires_of;
