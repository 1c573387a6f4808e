//! What decides about a tree that calls no operator: its names, its costs, its rates, or its tasks.
ghost use Rattle.std.specs.Prelude.{◌≡◌, ◌≢◌, [], IfOk};
ghost use Rattle.yt_graph.specs.AstPicture.{ast_tree};
ghost use Rattle.yt_graph.specs.AstWellFormed.{IsWritable};
ghost use Rattle.yt_graph.specs.Picture.{graph_tree};
ghost use Rattle.yt_graph.specs.WellFormed.{IsWellFormed};
ghost use Rattle.yt_cost.specs.Codes.{AreCodesOf};
ghost use Rattle.yt_rates.specs.Faults.{rate_fault};
ghost use Rattle.yt_admit.specs.Inside.Judged.{IsKept, stage_found};
ghost use Rattle.yt_admit.specs.Stages.{behind_rates, stage_of};

use std::alloc::{AllocError, Global};
use yt_cost::{Codes, CostFault, compile};
use yt_fits::Unfit;
use yt_graph::{Ast, Graph};
use yt_names::{NameFault, resolve};
use yt_rates::{AcceptCause, Accepted, NotAccepted, RateFault, accept};
use yt_set::TaskSet;

/// What decides about a tree that calls no operator.
#[derive(Drop)]
pub(crate) enum Judged {
    /// It has this first fault of names.
    Misnamed(NameFault),
    /// It is resolved, and has this first fault of costs.
    Costly(Graph, CostFault),
    /// It has this first fault of rates.
    Misrated(Graph, RateFault),
    /// Its names, costs and rates are in order, but its tasks, which are these, don't fit for this reason.
    Unfit(Graph, Unfit, TaskSet),
    /// It is accepted.
    Accepted(Accepted),
}

/// What decides about a tree. The caller shows that the tree can be written, as each is that `parse` gives. `Err` comes where memory
/// ran out.
pub(crate) fn judge(alloc: Global, ast: &Ast) -> Result<Judged, AllocError>
    requires { IsWritable (ast_tree ast.now) }
    ensures stage { IfOk result (λ judged. stage_found judged ≡ stage_of (ast_tree ast.now)) }
    ensures kept { IfOk result IsKept }
{
    let graph = match resolve(alloc, ast, &[]) {
        Ok(graph) => graph,
        Err(fault) => return misnamed(fault),
    };
    match compile(alloc, &graph) {
        Ok(codes) => rated(alloc, graph, codes),
        Err(fault) => costly(graph, fault),
    }
}

/// What decides about a graph whose names and costs are in order. The caller shows that it is well formed, and that the codes are
/// the graph's. `Err` comes where memory ran out.
fn rated(alloc: Global, graph: Graph, codes: Codes) -> Result<Judged, AllocError>
    requires well_formed { IsWellFormed (graph_tree graph) }
    requires codes { AreCodesOf (graph_tree graph) codes }
    ensures stage { IfOk result (λ judged. stage_found judged ≡ behind_rates (graph_tree graph) (rate_fault (graph_tree graph))) }
    ensures kept { IfOk result IsKept }
{
    match accept(alloc, graph, codes) {
        Ok(accepted) => Ok(Judged::Accepted(accepted)),
        Err(NotAccepted { graph, cause, .. }) => match cause {
            AcceptCause::Rate(fault) => Ok(Judged::Misrated(graph, fault)),
            AcceptCause::Unfit(why, set) => Ok(Judged::Unfit(graph, why, set)),
            AcceptCause::Memory => Err(AllocError),
        },
    }
}

/// What a first fault of names decides. `Err` comes where memory ran out, as `Memory` says.
fn misnamed(fault: NameFault) -> Result<Judged, AllocError>
    ensures { IfOk result (λ judged. (judged ≡ Judged.Misnamed fault) × (fault ≢ NameFault.Memory)) }
{
    match fault {
        NameFault::Memory => Err(AllocError),
        fault => Ok(Judged::Misnamed(fault)),
    }
}

/// What a first fault of costs decides. `Err` comes where memory ran out, as `Memory` says.
fn costly(graph: Graph, fault: CostFault) -> Result<Judged, AllocError>
    ensures { IfOk result (λ judged. (judged ≡ Judged.Costly graph fault) × (fault ≢ CostFault.Memory)) }
{
    match fault {
        CostFault::Memory => Err(AllocError),
        fault => Ok(Judged::Costly(graph, fault)),
    }
}
