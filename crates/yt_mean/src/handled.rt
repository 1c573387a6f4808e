//! What a port's handler does with one message.

ghost use Rattle.std.specs.Prelude.{◌≡◌, ◌≤◌, length, IfOk};
ghost use Rattle.yt_graph.specs.Picture.{graph_tree, port_tree};
ghost use Rattle.yt_graph.specs.Meaning.{handler_run, handling, handling_of};
ghost use Rattle.yt_graph.specs.Cost.{greatest_cost};
ghost use Rattle.yt_graph.specs.Limits.{most_cost};
ghost use Rattle.yt_graph.specs.WellFormed.{IsWellFormed};
ghost use Rattle.yt_mean.specs.Handled.{ForPort, Tells};
ghost use Rattle.yt_mean.specs.Inside.Within.{IsHandlerWithin};

use crate::walk::Walk;
use std::alloc::{AllocError, Global};
use yt_graph::{Graph, Port, Sends};
use yt_list::Vals;

/// What the handling of a message leaves.
#[derive(Debug, Drop)]
pub struct Handled {
    /// The variables, by place from 0.
    pub vars: Vals,
    /// The messages that were sent, in order.
    pub sends: Sends,
    /// The ticks that the handling took.
    pub ticks: u64,
}

/// Handles a message on the port of this number, from 1, where the graph's variables have these values. Want of memory is the
/// only refusal. Takes time in proportion to the ticks of the handling and the number of variables.
pub fn handle(
    alloc: Global,
    graph: &Graph,
    port: u32,
    msg: &[i64],
    vars: &[i64],
) -> Result<Handled, AllocError>
    requires well_formed { IsWellFormed (graph_tree graph.now) }
    requires first { 1 ≤ port }
    requires last { port ≤ length graph.now.ports }
    requires width { ForPort (graph_tree graph.now) port (λ p. length msg.now ≡ p.params) }
    requires vars { length vars.now ≡ length graph.now.vars }
    requires cost { ForPort (graph_tree graph.now) port (λ p. greatest_cost p ≤ most_cost) }
    ensures { IfOk result (λ answer.
        ForPort (graph_tree graph.now) port (λ p. Tells answer (handling (graph_tree graph.now) p msg.now vars.now))) }
{
    run(alloc, graph.ports.at(port as usize - 1), msg, vars)
}

// What the block of a port's handler does with a message.
pub(crate) fn run(
    alloc: Global,
    port: &Port,
    msg: &[i64],
    vars: &[i64],
) -> Result<Handled, AllocError>
    requires within { IsHandlerWithin (length vars.now) (port_tree port.now) }
    requires width { length msg.now ≡ port.now.params }
    requires cost { greatest_cost (port_tree port.now) ≤ most_cost }
    ensures { IfOk result (λ answer. Tells answer (handling_of (handler_run (port_tree port.now).body port.now.locals msg.now vars.now))) }
{
    let mut walk = Walk::begin(alloc, port.locals, msg, vars)?;
    walk.block(alloc, &port.body)?;
    walk.spend(1);
    Ok(walk.end())
}
