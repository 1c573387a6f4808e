//! Traces: the messages that come to a graph from outside, and the file of lines that says them.
//!
//! This crate knows nothing of schedules, of handlers or of how a trace is run. Its contract: [`read_trace`] gives the trace that a
//! text says of a graph, or the first fault of its first line at fault (`trace_of` in `specs/TraceText.antt`); and a trace that is
//! given keeps the graph's periods (`KeepsPeriods` in `specs/Traces.antt`), so that nothing of it has to be tested again.
#![tactic(auto)]

mod last_times;
mod laws;
mod limits;
mod message;
mod message_fault;
mod message_line;
mod read;
mod reader;
mod trace;

pub use laws::{
    no_trace_and_fault, trace_or_fault, traces_keep_periods, worked_faults, worked_traces,
};
pub use limits::{MOST_MESSAGES, MOST_TIME};
pub use message::Message;
pub use message_fault::MessageFault;
pub use read::{TraceFault, read_trace};
pub use trace::Trace;
