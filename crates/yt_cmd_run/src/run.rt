//! What is due to a run of a graph on a trace.
ghost use Rattle.std.specs.Prelude.{◌≡◌, ◌<◌, ◌≤◌, ◌^◌, IfOk, length};
ghost use Rattle.yt_answer.specs.declared.verdict.Verdict.TheVariants.{Done};
ghost use Rattle.yt_answer.specs.Due.{IsDue};
ghost use Rattle.yt_base.specs.Limits.{most_text_bytes};
ghost use Rattle.yt_bound.specs.Bounds.{job_bound};
ghost use Rattle.yt_graph.specs.Picture.{graph_tree};
ghost use Rattle.yt_runner.specs.Limits.{most_jobs_and_lines};
ghost use Rattle.yt_trace.specs.Traces.{KeepsPeriods};
ghost use Rattle.yt_cmd_run.specs.Causes.{IsRunText, run_verdict};
ghost use Rattle.yt_cmd_run.specs.Runs.{IsRun};

use crate::reading::{Reading, read_run};
use crate::text::run_text;
use std::alloc::{AllocError, Global};
use yt_answer::Answer;
use yt_rates::Accepted;
use yt_run_laws::runs_read_back;
use yt_runner::run;
use yt_trace::Trace;

/// What is due to a run, by the texts of the graph and of the trace, of which the caller shows that they aren't too long. `Err` comes
/// where memory ran out.
pub fn run_answer(alloc: Global, graph: &[u8], trace: &[u8]) -> Result<Answer, AllocError>
    requires graph { length graph.now ≤ most_text_bytes }
    requires trace { length trace.now < 2 ^ 32 }
    ensures { IfOk result (λ a. IsDue (run_verdict {graph = graph.now} {trace = trace.now}) IsRunText a.verdict a.text) }
{
    match read_run(alloc, graph, trace)? {
        Reading::Run(accepted, trace) => told_answer(alloc, &accepted, &trace),
        Reading::Refused(answer) => Ok(answer),
    }
}

/// The answer of a run of an accepted graph on a trace: its text. `Err` comes where memory ran out.
fn told_answer(alloc: Global, accepted: &Accepted, trace: &Trace) -> Result<Answer, AllocError>
    requires keeps { KeepsPeriods (graph_tree accepted.now.graph) trace.now }
    requires bound { job_bound (graph_tree accepted.now.graph) trace.now ≤ most_jobs_and_lines }
    ensures done { IfOk result (λ a. a.verdict ≡ Done) }
    ensures run { IfOk result (λ a. IsRun (graph_tree accepted.now.graph) trace.now a.text) }
{
    runs_read_back();
    let graph = accepted.graph();
    let told = run(alloc, accepted, trace)?;
    Ok(Answer::done(run_text(alloc, graph, &told)?))
}
