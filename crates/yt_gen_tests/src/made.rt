//! What is made, by its number.
ghost use Rattle.std.specs.Prelude.{◌≤◌, IfOk, length};
ghost use Rattle.yt_base.specs.Limits.{most_text_bytes};
ghost use Rattle.yt_rates.specs.Acceptance.{IsAccepted};

use std::alloc::{AllocError, Global};
use std::test::Fail;
use yt_admit::{Admission, admit};
use yt_gen::{MOST_PIPELINES, make_graph, make_trace};
use yt_rates::Accepted;

/// The text of the graph of so many pipelines, or of as many as there may be.
pub(crate) fn graph_text(alloc: Global, count: u32) -> Result<Vec<u8>, AllocError>
    ensures { IfOk result (λ text. length text.items ≤ most_text_bytes) }
{
    make_graph(alloc, count.min(MOST_PIPELINES))
}

/// The text of its trace.
pub(crate) fn trace_text(alloc: Global, count: u32) -> Result<Vec<u8>, AllocError>
    ensures { IfOk result (λ text. length text.items ≤ most_text_bytes) }
{
    make_trace(alloc, count.min(MOST_PIPELINES))
}

/// That graph.
pub(crate) fn accepted_graph(alloc: Global, count: u32) -> Result<Accepted, Fail>
    ensures { IfOk result IsAccepted }
{
    let text = graph_text(alloc, count)?;
    match admit(alloc, &text)? {
        Admission::Accepted(_, accepted) => Ok(accepted),
        Admission::Unfit(..) => Err("the tasks do not fit".into()),
        Admission::Refused(_) => Err("no graph that is in order".into()),
    }
}
