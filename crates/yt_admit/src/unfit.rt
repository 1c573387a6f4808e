//! The answer to a graph whose tasks don't fit.
ghost use Rattle.std.specs.Prelude.{◌≡◌, IfOk, codes};
ghost use Rattle.yt_graph.specs.Labels.{labels_of};
ghost use Rattle.yt_graph.specs.Picture.{graph_tree};
ghost use Rattle.yt_fits.specs.Unfits.{IsReason};
ghost use Rattle.yt_rates.specs.Tables.{tasks_of};
ghost use Rattle.yt_fitting.specs.Loads.{IsUnfitText, unfit_verdict};

use crate::labels::graph_labels;
use std::alloc::{AllocError, Global};
use yt_answer::Answer;
use yt_fits::Unfit;
use yt_fitting::{Kind, unfit_answer};
use yt_graph::Graph;
use yt_set::TaskSet;

/// The answer to a graph whose tasks, which are these, don't fit, by the reason. `Err` comes where memory ran out.
pub fn unfit_graph_answer(
    alloc: Global,
    graph: &Graph,
    set: &TaskSet,
    why: &Unfit,
) -> Result<Answer, AllocError>
    requires tasks { set.now ≡ tasks_of (graph_tree graph.now) }
    requires why { IsReason set.now why.now }
    ensures verdict { IfOk result (λ a. a.verdict ≡ unfit_verdict why.now) }
    ensures text { IfOk result (λ a. IsUnfitText (codes "graph") (labels_of (graph_tree graph.now)) (tasks_of (graph_tree graph.now)) why.now a.text) }
{
    let labels = graph_labels(alloc, graph)?;
    unfit_answer(alloc, Kind::Graph, labels.as_slice(), set, why)
}
