//! Whether a graph is accepted.
ghost use Rattle.std.specs.Prelude.{◌≡◌, None, IfOk, IfErr};
ghost use Rattle.yt_graph.specs.Picture.{graph_tree};
ghost use Rattle.yt_graph.specs.WellFormed.{IsWellFormed};
ghost use Rattle.yt_cost.specs.Codes.{AreCodesOf};
ghost use Rattle.yt_fits.specs.Loads.{load_sum};
ghost use Rattle.yt_rates.specs.Faults.{rate_fault};
ghost use Rattle.yt_rates.specs.Acceptance.{IsAccepted, IsFitting, IsCauseOf};

use crate::accepted::Accepted;
use crate::rating::rates;
use crate::refused::{AcceptCause, NotAccepted};
use crate::table::RateTable;
use crate::tasks::task_set;
use std::alloc::Global;
use yt_cost::Codes;
use yt_fits::{LoadSum, fits};
use yt_graph::Graph;
use yt_set::TaskSet;

/// Accepts a graph whose rates are within their limits and whose tasks fit. The caller shows that the graph is well formed, and
/// that the codes are the graph's.
///
/// A graph with a fault of its rates, or else with tasks that don't fit, is refused, and so is any where memory ran out. It is
/// then handed back with its codes, both unchanged.
pub fn accept(alloc: Global, graph: Graph, codes: Codes) -> Result<Accepted, NotAccepted>
    requires well_formed { IsWellFormed (graph_tree graph) }
    requires codes { AreCodesOf (graph_tree graph) codes }

    // What is accepted is this graph with these codes, and it fits.
    ensures graph { IfOk result (λ accepted. accepted.graph ≡ graph) }
    ensures codes { IfOk result (λ accepted. accepted.codes ≡ codes) }
    ensures accepted { IfOk result (λ accepted. IsAccepted accepted) }
    ensures no_fault { IfOk result (λ _. rate_fault (graph_tree graph) ≡ None) }

    // Otherwise both come back, with the cause.
    ensures same_graph { IfErr result (λ refused. refused.graph ≡ graph) }
    ensures same_codes { IfErr result (λ refused. refused.codes ≡ codes) }
    ensures cause { IfErr result (λ refused. IsCauseOf (graph_tree graph) refused.cause) }
{
    // Tells the proof that the codes are within the limits.
    prove!(codes.len() <= 64);
    match judge(alloc, &graph, &codes) {
        Ok(fit) => Ok(Accepted::new(graph, codes, fit.rates, fit.set, fit.load)),
        Err(cause) => Err(NotAccepted {
            graph,
            codes,
            cause,
        }),
    }
}

/// The rates, the tasks and the load of a graph that fits.
#[derive(Drop)]
struct Fitting {
    rates: RateTable,
    set: TaskSet,
    load: LoadSum,
}

/// The rates, the tasks and the load of a graph, or why it is not accepted.
fn judge(alloc: Global, graph: &Graph, codes: &Codes) -> Result<Fitting, AcceptCause>
    requires well_formed { IsWellFormed (graph_tree graph.now) }
    requires codes { AreCodesOf (graph_tree graph.now) codes.now }
    ensures fits { IfOk result (λ fit. IsFitting (graph_tree graph.now) fit.rates fit.set) }
    ensures load { IfOk result (λ fit. fit.load ≡ load_sum fit.set) }
    ensures no_fault { IfOk result (λ _. rate_fault (graph_tree graph.now) ≡ None) }
    ensures cause { IfErr result (λ cause. IsCauseOf (graph_tree graph.now) cause) }
{
    let rates = rates(alloc, graph, codes)?;
    let set = task_set(alloc, graph, codes, &rates)?;
    match fits(&set) {
        Ok(load) => Ok(Fitting { rates, set, load }),
        Err(why) => Err(AcceptCause::Unfit(why, set)),
    }
}
