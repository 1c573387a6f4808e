//! The rates of a graph.
ghost use Rattle.std.specs.Prelude.{◌≡◌, ℕ, ◌+◌, ◌-◌, ◌<◌, ◌≤◌, map, None, Some, length, slice_get, vec_len, IfOk, IfErr, OnOk};
ghost use Rattle.std.specs.List.{All};
ghost use Rattle.std.specs.Option.{ForSome};
ghost use Rattle.yt_graph.specs.Picture.{graph_tree, port_tree};
ghost use Rattle.yt_graph.specs.WellFormed.{IsWellFormed};
ghost use Rattle.yt_cost.specs.Codes.{AreCodesOf};
ghost use Rattle.yt_rates.specs.Rates.{distance_of, stream_within};
ghost use Rattle.yt_rates.specs.Faults.{IsWithinRates, port_fault, fault_at, rate_fault, IsFaultOf};
ghost use Rattle.yt_rates.specs.Tables.{AreRatesOf};
ghost use Rattle.yt_rates.specs.Inside.Rating.{AreRated, IsKnown, IsRated};

use crate::distances::distances;
use crate::fault::RateFault;
use crate::outs::rate_outs;
use crate::stream::Stream;
use crate::table::{Kept, RateTable};
use arrayvec::ArrayVec;
use std::alloc::{AllocError, Global};
use yt_cost::Codes;
use yt_graph::{Feed, Graph};
use yt_set::MOST_TICKS;

/// Rates each port. The caller shows that the graph is well formed and that the codes are the graph's.
///
/// Ports are visited by their distance from the input, then by number, and the first at fault decides. At a port Over comes
/// first, then for each out in order Zero and Span. Takes time in proportion to the ports and outs, and a look at each port for
/// each distance.
pub fn rates(alloc: Global, graph: &Graph, codes: &Codes) -> Result<RateTable, RateFault>
    requires well_formed { IsWellFormed (graph_tree graph.now) }
    requires codes { AreCodesOf (graph_tree graph.now) codes.now }

    // Each port has its rates, and all are within their limits.
    ensures rates { IfOk result (λ rates. AreRatesOf (graph_tree graph.now) rates) }
    ensures limits { IfOk result (λ _. All (IsWithinRates (graph_tree graph.now)) (graph_tree graph.now).ports) }
    ensures no_fault { IfOk result (λ _. rate_fault (graph_tree graph.now) ≡ None) }

    // Otherwise the fault is the one that decides, or memory ran out.
    ensures err { IfErr result (λ fault. IsFaultOf (rate_fault (graph_tree graph.now)) fault) }
{
    let distances = distances(alloc, graph)?;
    let mut table = blank(alloc, graph.ports.len())?;
    for distance in 0..graph.ports.len() + 1 {
        rate_at(graph, codes, &distances, distance, &mut table)?;
    }
    Ok(RateTable::new(table))
}

/// A table of so many ports that holds nothing yet.
fn blank(alloc: Global, count: usize) -> Result<Vec<Kept>, AllocError>
    ensures { IfOk result (λ v. length v.items ≡ count) }
{
    let mut table = Vec::with_capacity(alloc, count)?;
    for _ in 0..count {
        table.push(Kept {
            stream: Stream::default(),
            outs: ArrayVec::new(),
        })?;
    }
    Ok(table)
}

/// Rates the ports that stand so far from the input, in order, where those nearer to it are rated.
fn rate_at(
    graph: &Graph,
    codes: &Codes,
    distances: &[usize],
    distance: usize,
    table: &mut Vec<Kept>,
) -> Result<(), RateFault>
    requires well_formed { IsWellFormed (graph_tree graph.now) }
    requires codes { AreCodesOf (graph_tree graph.now) codes.now }
    requires distances { distances.now ≡ map (distance_of (graph_tree graph.now)) (graph_tree graph.now).ports }
    requires nearer { AreRated (graph_tree graph.now) distance 0 table.old.items }
    ensures rated { OnOk result (AreRated (graph_tree graph.now) (distance + 1) 0 table.new.items) }
    ensures no_fault { OnOk result (fault_at (graph_tree graph.now) distance 1 (graph_tree graph.now).ports ≡ None) }
    ensures err { IfErr result (λ fault. fault_at (graph_tree graph.now) distance 1 (graph_tree graph.now).ports ≡ Some fault) }
{
    for place in 0..graph.ports.len() {
        if distances[place] == distance {
            let kept = rate_port(graph, codes, table, place)?;
            table[place] = kept;
        }
    }
    Ok(())
}

/// The rates of the port at this place, from 0, or its fault, where the port that feeds it is rated.
fn rate_port(graph: &Graph, codes: &Codes, table: &[Kept], place: usize) -> Result<Kept, RateFault>
    requires well_formed { IsWellFormed (graph_tree graph.now) }
    requires codes { AreCodesOf (graph_tree graph.now) codes.now }
    requires there { place < length graph.now.ports }
    requires rated { ForSome (slice_get (graph_tree graph.now).ports place) (λ p. AreRated (graph_tree graph.now) (distance_of (graph_tree graph.now) p) 0 table.now) }
    ensures rated { IfOk result (λ kept. ForSome (slice_get (graph_tree graph.now).ports place) (λ p. IsRated (graph_tree graph.now) p kept)) }
    ensures no_fault { IfOk result (λ _. ForSome (slice_get (graph_tree graph.now).ports place) (λ p. port_fault (graph_tree graph.now) (place + 1) p ≡ None)) }
    ensures err { IfErr result (λ fault. ForSome (slice_get (graph_tree graph.now).ports place) (λ p. port_fault (graph_tree graph.now) (place + 1) p ≡ Some fault)) }
{
    let port = graph.ports.at(place);
    let number = place as u32 + 1;
    let stream = stream_to(graph, table, port.feed);
    if stream.period > MOST_TICKS {
        return Err(RateFault::Over {
            port: number,
            period: stream.period,
        });
    }
    let outs = rate_outs(codes, number, port, stream)?;
    Ok(Kept { stream, outs })
}

/// The messages of a feed, which the table knows.
fn stream_to(graph: &Graph, table: &[Kept], feed: Feed) -> Stream
    requires { IsKnown (graph_tree graph.now) table.now feed (stream_within (graph_tree graph.now) (length (graph_tree graph.now).ports) feed) }
    ensures { result ≡ stream_within (graph_tree graph.now) (length (graph_tree graph.now).ports) feed }
{
    match feed {
        Feed::Input(input) => Stream {
            period: graph.inputs.at(input as usize - 1).period,
            start: 0,
        },
        Feed::Out { port, out } => {
            let kept = &table[port as usize - 1];
            kept.outs[out as usize - 1]
        }
    }
}
