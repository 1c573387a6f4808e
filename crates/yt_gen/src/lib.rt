//! Graphs and traces that are made by a number, to try the program on.
//!
//! The graph of a number has so many pipelines, each from an input through two ports to an output, and every second one is under one
//! resource. The trace has 400 messages for each input. This crate may not know how a graph or a trace is answered, nor how their texts
//! are read. Its contract: [`make_graph`] and [`make_trace`] give the texts that `specs/GraphText.antt` and `specs/TraceText.antt` say.
#![tactic(auto)]

mod graph;
mod limits;
mod message;
mod pipeline;
mod trace;

pub use graph::make_graph;
pub use limits::MOST_PIPELINES;
pub use trace::make_trace;
