//! The limits of a graph, which definitions have in `specs/Limits`.

/// How many bytes a name has at most.
pub const MOST_NAME_BYTES: usize = 32;

/// How many inputs a graph has at most.
pub const MOST_INPUTS: usize = 16;

/// How many outputs a graph has at most.
pub const MOST_OUTPUTS: usize = 16;

/// How many resources a graph declares at most.
pub const MOST_RESOURCES: usize = 32;

/// How many processes a graph has at most.
pub const MOST_PROCESSES: usize = 64;

/// How many ports all processes of a graph have at most.
pub const MOST_PORTS: usize = 64;

/// How many variables all processes of a graph have at most.
pub const MOST_VARS: usize = 256;

/// How many outs a port has at most.
pub const MOST_OUTS: usize = 8;

/// How many locals a handler has at most, parameters among them.
pub const MOST_LOCALS: usize = 16;

/// How many numbers a message has at most.
pub const MOST_WIDTH: u32 = 8;

/// How many ticks are at most from one message of an input to the next.
pub const MOST_PERIOD: u32 = 1_000_000;

/// The greatest number behind `every`: of how many jobs one passes its messages on.
pub const MOST_EVERY: u32 = 1000;

/// How many turns a `repeat` makes at most.
pub const MOST_TURNS: u32 = 10_000;
