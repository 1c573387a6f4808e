//! Tests of the top call (`yartos`): `run` and `stop`.
//!
//! This crate has nothing but tests, and no crate stands on it. It knows the top call, the walk over tables of rows (`yartos_rows`), and
//! for long traces the text that grows (`yt_base`) and the sink in memory (`yt_io`). Its tests show what no clause says: that a call ends well where memory suffices, and that its answer is the one worked out by
//! hand. A test is a table of rows, which are data, and one call that goes over them: no row is part of a proof.
#![tactic(auto)]

#[cfg(test)]
mod graph_texts;
#[cfg(test)]
mod graphs;
#[cfg(test)]
mod long_runs;
#[cfg(test)]
mod runs;
#[cfg(test)]
mod stops;
#[cfg(test)]
mod traces;
