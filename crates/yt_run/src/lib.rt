//! What a run of a graph on a trace tells, and how it is printed and read back.
//!
//! This crate may not know of text that comes in, of files, of words, or of how runs are made. Its contract: what a text has to satisfy to be
//! the run's ([`faithful_texts`], with the text of a run and what is read back from it in `specs/RunText.antt`).
#![tactic(auto)]

mod laws;
mod told;

pub use laws::faithful_texts;
pub use told::Told;
pub use yt_serial::{OutLine, Outs};
