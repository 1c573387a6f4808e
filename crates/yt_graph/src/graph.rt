//! The resolved graph.

use crate::port::Ports;
use yt_list::{Items, Name, Names};

/// An input of the graph.
#[derive(Debug, Drop)]
pub struct Input {
    /// Its name.
    pub name: Name,
    /// How many numbers each of its messages has.
    pub width: u32,
    /// The least time between two of its messages, in ticks.
    pub period: u64,
}

/// Inputs, by number from 1.
pub type Inputs = Items<Input>;

/// An output of the graph.
#[derive(Debug, Drop)]
pub struct Output {
    /// Its name.
    pub name: Name,
    /// The number of the port whose messages it shows, from 1.
    pub port: u32,
    /// The number of that port's out, from 1.
    pub out: u32,
}

/// Outputs, by number from 1.
pub type Outputs = Items<Output>;

/// A variable of a process.
#[derive(Debug, Drop)]
pub struct Var {
    /// The name of the process.
    pub process: Name,
    /// The variable's name, which no other variable of the process has.
    pub name: Name,
    /// The variable's value before the first tick.
    pub start: i64,
}

/// The variables of all processes, by place from 0.
pub type Vars = Items<Var>;

/// A graph whose names are resolved. Inputs, outputs, resources and ports are numbered from 1, variables have places
/// from 0.
#[derive(Debug, Drop)]
pub struct Graph {
    /// The inputs, by number from 1.
    pub inputs: Inputs,
    /// The outputs, by number from 1.
    pub outputs: Outputs,
    /// The names of the resources, by number from 1: those that are declared, then one for each process that has variables
    /// and is in none of those.
    pub groups: Names,
    /// The variables of all processes, by place from 0.
    pub vars: Vars,
    /// The ports, by number from 1.
    pub ports: Ports,
}
