//! Handlers as code: instructions, and the machine that steps through them, one tick at a time.
//!
//! This crate knows nothing of trees, text or schedules, nor what becomes of a message that is sent. Its contract: valid
//! code is never stuck, and each call of [`Machine::step`] is one tick of the table of instructions
//! (`instruction_step` in `specs/Step.antt`).
#![tactic(auto)]

mod code;
mod instr;
mod laws;
mod limits;
mod machine;
mod outbox;
mod pile;
mod stepped;

pub use code::Code;
pub use instr::{Instr, Instrs};
pub use laws::valid_code_is_never_stuck;
pub use limits::{MOST_OPEN_LOOPS, STACK_ROOM};
pub use machine::Machine;
pub use outbox::Outbox;
pub use stepped::Stepped;
