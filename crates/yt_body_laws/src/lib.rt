//! The handlers of a graph in an interleaved run: what they carry of it, and how each of their calls is a move of the run.
//!
//! There is no code here but laws. `Carries` says of a state of handlers that it is that of a run between two ticks, as far as the
//! messages have come. [`bodies_start`] gives it before the first message, and [`bodies_idle`] and [`bodies_tick`] keep it through ticks;
//! [`bodies_have_left`] says what is left of each job. [`bodies_place`] says that each message that comes finds its port free, and that it
//! is the one that comes in the run; [`bodies_tell`] what is released and shown of them; and [`bodies_rest`] what is still to come.
//!
//! [`bodies_read`] says how far a trace is read, and [`bodies_run`] ties all together: an executive and handlers that are in step with a
//! run (`IsInStep`) stay so through all that comes and through each tick, up to the promised run. This crate may not know of texts or of
//! the run's loop.
#![tactic(auto)]

mod laws;

pub use laws::{
    bodies_have_left, bodies_idle, bodies_place, bodies_read, bodies_rest, bodies_run,
    bodies_start, bodies_tell, bodies_tick,
};
