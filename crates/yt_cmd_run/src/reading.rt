//! From the texts of a graph and of a trace to what is run, or to why it isn't.
ghost use Rattle.std.specs.Prelude.{◌≡◌, ◌<◌, ◌≤◌, ◌^◌, IfOk, length};
ghost use Rattle.yt_answer.specs.declared.verdict.Verdict.TheVariants.{Trace as RefusedTrace};
ghost use Rattle.yt_base.specs.Limits.{most_text_bytes};
ghost use Rattle.yt_rates.specs.Acceptance.{IsAccepted};
ghost use Rattle.yt_cmd_run.specs.declared.reading.Reading.TheVariants.{Refused};
ghost use Rattle.yt_cmd_run.specs.Inside.Readings.{IsReadingOf, IsTracedReading};

use crate::lines::{jobs_line, trace_line};
use std::alloc::{AllocError, Global};
use yt_admit::{Admission, admit, unfit_graph_answer};
use yt_answer::{Answer, Verdict};
use yt_base::Text;
use yt_bound::job_bound;
use yt_rates::Accepted;
use yt_runner::MOST_JOBS_AND_LINES;
use yt_trace::{Trace, read_trace};

/// What the texts of a graph and of a trace give.
#[derive(Drop)]
pub(crate) enum Reading {
    /// An accepted graph, and a trace that keeps its periods, of which a run comes to few enough jobs and lines.
    Run(Accepted, Trace),
    /// The answer: one of the texts is refused.
    Refused(Answer),
}

/// What the texts of a graph and of a trace give. `Err` comes where memory ran out.
pub(crate) fn read_run(alloc: Global, graph: &[u8], trace: &[u8]) -> Result<Reading, AllocError>
    requires graph { length graph.now ≤ most_text_bytes }
    requires trace { length trace.now < 2 ^ 32 }
    ensures { IfOk result (λ reading. IsReadingOf graph.now trace.now reading) }
{
    match admit(alloc, graph)? {
        Admission::Refused(answer) => Ok(Reading::Refused(answer)),
        Admission::Unfit(graph, why, set) => Ok(Reading::Refused(unfit_graph_answer(
            alloc, &graph, &set, &why,
        )?)),
        Admission::Accepted(_, accepted) => read_traced(alloc, accepted, trace),
    }
}

/// What the text of a trace gives for an accepted graph. `Err` comes where memory ran out.
fn read_traced(alloc: Global, accepted: Accepted, text: &[u8]) -> Result<Reading, AllocError>
    requires accepted { IsAccepted accepted }
    requires short { length text.now < 2 ^ 32 }
    ensures { IfOk result (λ reading. IsTracedReading accepted text.now reading) }
{
    let trace = match read_trace(alloc, accepted.graph(), text) {
        Ok(trace) => trace,
        Err(fault) => return Ok(refused(trace_line(alloc, fault)?)),
    };
    let bound = job_bound(&accepted, &trace);
    if bound > MOST_JOBS_AND_LINES {
        return Ok(refused(jobs_line(alloc, bound)?));
    }
    Ok(Reading::Run(accepted, trace))
}

/// The refusal of a trace, by its line.
fn refused(text: Text) -> Reading
    ensures { result ≡ Refused (record { verdict = RefusedTrace; text = text }) }
{
    Reading::Refused(Answer {
        verdict: Verdict::Trace,
        text,
    })
}
