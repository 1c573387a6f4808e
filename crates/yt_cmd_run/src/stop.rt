//! What is due to a run of a graph on a trace that is stopped at a tick.
ghost use Rattle.std.specs.Prelude.{◌≡◌, ◌<◌, ◌≤◌, ◌^◌, IfOk, length};
ghost use Rattle.yt_answer.specs.declared.verdict.Verdict.TheVariants.{Done};
ghost use Rattle.yt_answer.specs.Due.{IsDue};
ghost use Rattle.yt_base.specs.Limits.{most_text_bytes};
ghost use Rattle.yt_bound.specs.Bounds.{job_bound};
ghost use Rattle.yt_graph.specs.Picture.{graph_tree};
ghost use Rattle.yt_runner.specs.Limits.{most_jobs_and_lines};
ghost use Rattle.yt_trace.specs.Traces.{KeepsPeriods};
ghost use Rattle.yt_cmd_run.specs.Causes.{IsStopText, run_verdict};
ghost use Rattle.yt_cmd_run.specs.Runs.{IsStop};

use crate::reading::{Reading, read_run};
use crate::stop_text::stop_text;
use std::alloc::{AllocError, Global};
use yt_answer::Answer;
use yt_rates::Accepted;
use yt_runner::vars_at;
use yt_trace::Trace;

/// What is due to a run that is stopped at a tick, by the texts of the graph and of the trace, of which the caller shows that they aren't
/// too long. `Err` comes where memory ran out.
pub fn stop_answer(
    alloc: Global,
    graph: &[u8],
    trace: &[u8],
    tick: u32,
) -> Result<Answer, AllocError>
    requires graph { length graph.now ≤ most_text_bytes }
    requires trace { length trace.now < 2 ^ 32 }
    ensures { IfOk result (λ a. IsDue (run_verdict {graph = graph.now} {trace = trace.now}) (IsStopText tick) a.verdict a.text) }
{
    match read_run(alloc, graph, trace)? {
        Reading::Run(accepted, trace) => stopped_answer(alloc, &accepted, &trace, tick),
        Reading::Refused(answer) => Ok(answer),
    }
}

/// The answer of a run of an accepted graph on a trace that is stopped at a tick: its variables there. `Err` comes where memory ran out.
fn stopped_answer(
    alloc: Global,
    accepted: &Accepted,
    trace: &Trace,
    tick: u32,
) -> Result<Answer, AllocError>
    requires keeps { KeepsPeriods (graph_tree accepted.now.graph) trace.now }
    requires bound { job_bound (graph_tree accepted.now.graph) trace.now ≤ most_jobs_and_lines }
    ensures done { IfOk result (λ a. a.verdict ≡ Done) }
    ensures stop { IfOk result (λ a. IsStop (graph_tree accepted.now.graph) trace.now tick a.text) }
{
    let values = vars_at(alloc, accepted, trace, u64::from(tick))?;
    let text = stop_text(alloc, accepted.graph(), values.as_slice(), tick)?;
    Ok(Answer::done(text))
}
