//! Targets of wires.

/// A target of a wire, by its number, from 1: a port, or an output. [`crate::Channels::deliver_one`] answers with the one at which a
/// message was placed.
#[derive(Clone, Copy, Debug, PartialEq, Eq)]
pub enum Arrived {
    Port(u32),
    Output(u32),
}
