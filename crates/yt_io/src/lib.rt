//! What a program takes from outside and gives back: named files and a stream of bytes, with their faults counted.
//!
//! A [`Shelf`] gives files and a [`Sink`] takes bytes. Those in memory tell all that they hold and fail where they are told
//! to, so that a contract can name each outcome; those of the system tell nothing, and are the edge that is trusted. No
//! layer below knows what a file or a text is about.
#![tactic(auto)]

mod host_shelf;
mod host_sink;
mod mem_shelf;
mod mem_sink;
mod shelf;
mod sink;

pub use host_shelf::HostShelf;
pub use host_sink::HostSink;
pub use mem_shelf::MemShelf;
pub use mem_sink::MemSink;
pub use shelf::{Shelf, ShelfFault};
pub use sink::{Sink, SinkFault};
