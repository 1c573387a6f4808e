//! How far ports stand from the input.
ghost use Rattle.std.specs.Prelude.{◌≡◌, map, length, IfOk};
ghost use Rattle.yt_graph.specs.Picture.{graph_tree};
ghost use Rattle.yt_graph.specs.WellFormed.{IsWellFormed, EndsWithin};
ghost use Rattle.yt_rates.specs.Rates.{distance_of, distance_within};

use std::alloc::{AllocError, Global};
use yt_graph::{Feed, Graph};

/// How many ports stand between the input and each port, by place from 0.
pub(crate) fn distances(alloc: Global, graph: &Graph) -> Result<Vec<usize>, AllocError>
    requires { IsWellFormed (graph_tree graph.now) }
    ensures { IfOk result (λ v. v.items ≡ map (distance_of (graph_tree graph.now)) (graph_tree graph.now).ports) }
{
    let mut all = Vec::with_capacity(alloc, graph.ports.len())?;
    for place in 0..graph.ports.len() {
        all.push(distance(graph, graph.ports.at(place).feed))?;
    }
    Ok(all)
}

/// How many ports stand between the input and a feed.
fn distance(graph: &Graph, feed: Feed) -> usize
    requires { EndsWithin (graph_tree graph.now) (length (graph_tree graph.now).ports) feed }
    ensures { result ≡ distance_within (graph_tree graph.now) (length (graph_tree graph.now).ports) feed }
{
    let mut at = feed;
    for passed in 0..graph.ports.len() {
        match at {
            Feed::Input(_) => return passed,
            Feed::Out { port, .. } => at = graph.ports.at(port as usize - 1).feed,
        }
    }
    graph.ports.len()
}
