//! Operators that handlers may call, as the host supplies them: a table of stored closures, each beside the fact of what it
//! answers.
//!
//! This crate knows nothing of what calls an operator, nor of how a closure comes to its answer. Its contract: a table is the
//! list of its heads, which are at most [`MOST_OPS`], within their ranges and of different names; and what it answers to a call
//! is the value of the code of the head that the number has.
#![tactic(auto)]

mod heads;
mod limits;
mod refused;
mod stored;
mod table;

pub use limits::MOST_OPS;
pub use refused::{OpCause, OpRefused};
pub use stored::OpBody;
pub use table::OpTable;
