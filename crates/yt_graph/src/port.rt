//! Ports and their outs.

use crate::stmt::Block;
use yt_list::{Items, Name};

/// What sends messages to a port.
#[derive(Clone, Copy, Debug, PartialEq, Eq)]
pub enum Feed {
    /// The input of this number, from 1.
    Input(u32),
    /// The out of this number of the port of this number, both from 1.
    Out { port: u32, out: u32 },
}

/// An out of a port.
#[derive(Debug, Drop)]
pub struct OutHead {
    /// Its name, which no other out of the port has.
    pub name: Name,
    /// How many numbers each of its messages has.
    pub width: u32,
    /// Which jobs pass their messages on: those whose number is a multiple of this. 1 means all.
    pub every: u32,
}

/// A port's outs, by number from 1.
pub type OutHeads = Items<OutHead>;

/// A port and its handler.
#[derive(Debug, Drop)]
pub struct Port {
    /// The name of the port's process.
    pub process: Name,
    /// The port's name, which no other port of the process has.
    pub name: Name,
    /// What sends messages to the port.
    pub feed: Feed,
    /// The resource that the handler is under, from 1, or 0 for none.
    pub group: u32,
    /// How many numbers each message of the port has: the handler's first locals.
    pub params: u32,
    /// How many locals the handler has, parameters among them.
    pub locals: u32,
    /// The port's outs, by number from 1.
    pub outs: OutHeads,
    /// What the handler does with a message.
    pub body: Block,
}

/// Ports, by number from 1.
pub type Ports = Items<Port>;
