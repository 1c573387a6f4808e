//! What a port's handler does with one message: a plain interpreter that walks the handler's tree.
//!
//! This crate knows nothing of instructions, of schedules or of other messages. Its contract: [`handle`] answers the variables,
//! the messages sent and the ticks that the handler's meaning says.
#![tactic(auto)]

mod handled;
mod value;
mod walk;

pub use handled::{Handled, handle};
pub use yt_graph::{SendItem, Sends};
