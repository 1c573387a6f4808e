//! The syntax tree of a graph's text: what is written, before any name is looked up.

use crate::ast_stmt::Stmts;
use crate::place::Place;
use yt_list::{Items, Name};

/// A word of the text that names something.
#[derive(Debug, Drop)]
pub struct Word {
    /// Its bytes: 1 to 32 ASCII letters, digits and `_`, no digit first.
    pub text: Name,
    /// Where it stands.
    pub place: Place,
}

/// Words in order.
pub type Words = Items<Word>;

/// A number of the text, from 0 to 2^63 - 1.
#[derive(Clone, Copy, Debug, PartialEq, Eq)]
pub struct Num {
    /// Its value.
    pub value: i64,
    /// Where it stands.
    pub place: Place,
}

/// What names an out from anywhere in the graph.
#[derive(Debug, Drop)]
pub struct Path {
    /// The process of the port.
    pub process: Word,
    /// The port of the out.
    pub port: Word,
    /// The out.
    pub out: Word,
}

/// What a port gets its messages from.
#[derive(Debug, Drop)]
pub enum Source {
    /// An input, by its name.
    Input(Word),
    /// An out of a port.
    Out(Path),
}

/// A variable of a process.
#[derive(Debug, Drop)]
pub struct VarDecl {
    /// Its name.
    pub name: Word,
    /// Its value before the first tick.
    pub start: i64,
}

/// Variables in order.
pub type VarDecls = Items<VarDecl>;

/// An out of a port.
#[derive(Debug, Drop)]
pub struct OutDecl {
    /// Its name.
    pub name: Word,
    /// How many numbers each of its messages has.
    pub width: Num,
    /// Every how many jobs of the port it passes messages on, where that is written.
    pub every: Option<Num>,
}

/// Outs in order.
pub type OutDecls = Items<OutDecl>;

/// A port with its handler.
#[derive(Debug, Drop)]
pub struct PortDecl {
    /// Its name.
    pub name: Word,
    /// What it gets its messages from.
    pub source: Source,
    /// The names of a message's numbers in the handler.
    pub params: Words,
    /// Its outs.
    pub outs: OutDecls,
    /// What the handler does with a message.
    pub body: Stmts,
}

/// Ports in order.
pub type PortDecls = Items<PortDecl>;

/// A part of a graph.
#[derive(Debug, Drop)]
pub enum Item {
    /// Where messages come in: its name, how many numbers each has, and the least time between two, in ticks.
    Input {
        name: Word,
        width: Num,
        period: Num,
    },
    /// Where messages go out: its name, and the out whose messages it shows.
    Output {
        name: Word,
        path: Path,
    },
    /// A resource that processes share.
    Resource {
        name: Word,
    },
    /// A process: the resource that it is in, where one is written, its variables and its ports.
    Process {
        name: Word,
        inside: Option<Word>,
        vars: VarDecls,
        ports: PortDecls,
    },
}

/// The syntax tree of a graph's text.
#[derive(Debug, Drop)]
pub struct Ast {
    /// The parts in the text's order.
    pub items: Items<Item>,
}
