//! Laws of schedules: what segments tell, in which order deadlines fall, and when messages, logs and runs end.
//!
//! There is no code here but laws. The segments of a log are the one list that tells its ticks by longest segments
//! ([`segments_tell_the_log`]); of the jobs that have begun, the one that began last has the earliest current deadline
//! ([`begun_deadlines_fall`]); a job that is done by its deadline is done before the next one of its task comes ([`none_is_replaced`]);
//! and the messages, lines and log of a run end in time ([`messages_come_in_time`], [`logs_end`], [`runs_end`]). This crate may not know
//! of texts, of an executive, or of how several messages are handled at once. Its contract: the statements in `specs/`.
#![tactic(auto)]

mod laws;

pub use laws::{
    begun_deadlines_fall, logs_end, messages_come_in_time, none_is_replaced, runs_end,
    segments_tell_the_log,
};
