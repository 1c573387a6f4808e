//! The tasks of a graph.
ghost use Rattle.std.specs.Prelude.{◌≡◌, IfOk};
ghost use Rattle.yt_graph.specs.Picture.{graph_tree};
ghost use Rattle.yt_graph.specs.WellFormed.{IsWellFormed};
ghost use Rattle.yt_cost.specs.Codes.{AreCodesOf};
ghost use Rattle.yt_rates.specs.Tables.{AreRatesOf, tasks_of};

use crate::table::RateTable;
use std::alloc::{AllocError, Global};
use yt_cost::Codes;
use yt_graph::Graph;
use yt_set::{Task, TaskSet};

/// The tasks of a graph: each port's greatest cost, its period and its resource. The caller shows that the graph is well formed, and
/// that the codes and rates are the graph's.
pub fn task_set(
    alloc: Global,
    graph: &Graph,
    codes: &Codes,
    rates: &RateTable,
) -> Result<TaskSet, AllocError>
    requires well_formed { IsWellFormed (graph_tree graph.now) }
    requires codes { AreCodesOf (graph_tree graph.now) codes.now }
    requires rates { AreRatesOf (graph_tree graph.now) rates.now }
    ensures { IfOk result (λ set. set ≡ tasks_of (graph_tree graph.now)) }
{
    let mut tasks = Vec::with_capacity(alloc, codes.len())?;
    for place in 0..codes.len() {
        let port = place as u32 + 1;
        let cost = codes.cost(port);
        let period = rates.period(port);
        let resource = graph.ports.at(place).group;
        tasks.push(Task {
            cost,
            period,
            resource,
        })?;
    }
    Ok(TaskSet::of(tasks))
}
