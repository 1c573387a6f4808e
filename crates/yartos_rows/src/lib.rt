//! What the crates of tests of the top call share: rows of words, files and answers, and the walk over a table of them.
//!
//! Only crates of tests stand on this crate. It knows the top call and the shelf and sink in memory alone. A row that isn't answered as it
//! says ends the walk, by its number and the answer that was given ([`Wrong`]). What is proved is that a walk is safe and ends.
#![tactic(auto)]

mod graphs;
mod rows;

pub use graphs::{
    BLINK, BUSY, BUSY_TEXT, COSTLY, COUNTER, CROWDED, FAST, MANY_SENDS, RELAY, TIGHT, TIGHT_TEXT,
    UNDECLARED, WIDE,
};
pub use rows::{FaultRow, Files, Row, Wrong, ask, expect, held, judge, judge_faults};
