//! Whole runs, and runs up to a tick.
ghost use Rattle.std.specs.Prelude.{◌≤◌, IfOk};
ghost use Rattle.yt_bound.specs.Bounds.{job_bound};
ghost use Rattle.yt_graph.specs.Picture.{graph_tree};
ghost use Rattle.yt_serial.specs.Told.{IsPromisedRun};
ghost use Rattle.yt_trace.specs.Traces.{KeepsPeriods};
ghost use Rattle.yt_runner.specs.Limits.{most_jobs_and_lines};
ghost use Rattle.yt_runner.specs.Variables.{AreVariablesAt};

use crate::running::Running;
use std::alloc::{AllocError, Global};
use yt_list::Vals;
use yt_rates::Accepted;
use yt_run::Told;
use yt_trace::Trace;

/// The run of an accepted graph on a trace: its log and its output lines. The caller shows that the trace keeps the graph's periods and
/// that the run comes to at most [`MOST_JOBS_AND_LINES`](crate::MOST_JOBS_AND_LINES) jobs and lines. Takes constant time for a tick that
/// goes to a job, whatever the number of ports, and none for a stretch without one. `Err` comes where memory ran out.
pub fn run(alloc: Global, accepted: &Accepted, trace: &Trace) -> Result<Told, AllocError>
    requires keeps { KeepsPeriods (graph_tree accepted.now.graph) trace.now }
    requires bound { job_bound (graph_tree accepted.now.graph) trace.now ≤ most_jobs_and_lines }
    ensures { IfOk result (λ told. IsPromisedRun (graph_tree accepted.now.graph) trace.now told.log told.outs) }
{
    let mut running = Running::new(alloc, accepted, trace)?;
    running.go_on(alloc, u64::MAX)?;
    Ok(running.told())
}

/// The variables of a run before tick `tick`, by place from 0: what the handlers have written in the ticks before it, in whole handlers or
/// in parts. After the run's end they stay. The caller shows what it shows to [`run`]. `Err` comes where memory ran out.
pub fn vars_at(
    alloc: Global,
    accepted: &Accepted,
    trace: &Trace,
    tick: u64,
) -> Result<Vals, AllocError>
    requires keeps { KeepsPeriods (graph_tree accepted.now.graph) trace.now }
    requires bound { job_bound (graph_tree accepted.now.graph) trace.now ≤ most_jobs_and_lines }
    ensures { IfOk result (λ values. AreVariablesAt (graph_tree accepted.now.graph) trace.now tick values) }
{
    let mut running = Running::new(alloc, accepted, trace)?;
    running.go_on(alloc, tick)?;
    running.vars(alloc)
}
