//! Plans and logs of jobs, their texts, and what is proved of them.
//!
//! A plan says which jobs of a task set arrive when, and what they cost; a log says which job each tick went to. The definitions
//! say when a log is lawful, work-conserving, exclusive and on time, and which log earliest deadline first with dynamic deadline
//! modification makes. This crate may not know of graphs, messages or how an executive works. Its contract: the laws of
//! `specs/Laws.antt`, of every task set, plan and log; a [`Plan`] is in order of arrival, and [`read_plan`] answers the plan that a
//! text says (`plan_of` in `specs/PlanText.antt`), or its first fault; a [`Log`] is the ticks that were told, in longest segments;
//! [`first_miss`] and [`first_broken`] judge a log: which job misses its deadline first, and at which tick it first breaks which rule.
#![tactic(auto)]

mod item_fault;
mod item_line;
mod job;
mod judge;
mod last_jobs;
mod laws;
mod log;
mod plan;
mod put;
mod read;
mod reader;
mod task_names;

pub use job::{Job, Segment};
pub use judge::{Broken, Miss, Rule, first_broken, first_miss};
pub use last_jobs::LastJob;
pub use laws::{
    blockers_miss, demand_keeps, every_demand, fits_is_exact, fits_keeps, free_fits_keeps,
    overloads_miss, rule_is_determined, rule_is_least, rule_is_non_clairvoyant, rule_is_online,
    rule_is_safe, rule_makes_logs, rule_misses, worked_schedules,
};
pub use log::Log;
pub use plan::{Plan, PlanItem};
pub use put::{put_end, put_segment};
pub use read::{PlanFault, read_plan};
