//! The compiler of a graph.

ghost use Rattle.std.specs.Prelude.{◌≡◌, ◌≤◌, None, Some, length, IfOk, IfErr};
ghost use Rattle.std.specs.List.{All};
ghost use Rattle.std.specs.Option.{option_map};
ghost use Rattle.yt_graph.specs.Picture.{graph_tree, port_tree};
ghost use Rattle.yt_graph.specs.Cost.{greatest_cost};
ghost use Rattle.yt_graph.specs.Limits.{most_cost, most_outs, most_vars};
ghost use Rattle.yt_graph.specs.WellFormed.{IsWellFormed};
ghost use Rattle.yt_cost.specs.CodeFit.{HasNoCalls, IsHandlerFit};
ghost use Rattle.yt_cost.specs.Codes.{IsCodeOf, AreCodesOf, AreSendsOf};
ghost use Rattle.yt_cost.specs.Faults.{IsWithinLimits, crowded_out, port_fault, cost_fault, IsFaultOf};

use crate::codes::{Codes, Kept};
use crate::emit::compile_port;
use crate::fault::CostFault;
use crate::limits::{MOST_SENDS, MOST_TICKS};
use crate::sends::sends_in_all;
use crate::ticks::block_ticks;
use arrayvec::ArrayVec;
use std::alloc::Global;
use yt_graph::{Graph, MOST_OUTS, Port};
use yt_list::Items;

/// Compiles the handler of each port. The caller shows that the graph is well formed and that no handler calls an operator.
///
/// The first port at fault decides, and at one port Long comes before Sends, at its first out. Takes time in proportion to
/// the size of the handlers, times the depth of their blocks or the number of their outs, which are few.
pub fn compile(alloc: Global, graph: &Graph) -> Result<Codes, CostFault>
    requires well_formed { IsWellFormed (graph_tree graph.now) }
    requires no_calls { HasNoCalls (graph_tree graph.now) }

    // Each port has its code, and none passes a limit.
    ensures codes { IfOk result (λ codes. AreCodesOf (graph_tree graph.now) codes) }
    ensures no_fault { IfOk result (λ _. cost_fault (graph_tree graph.now) ≡ None) }
    ensures limits { IfOk result (λ _. All IsWithinLimits (graph_tree graph.now).ports) }

    // Otherwise the fault is the one that decides, or memory ran out.
    ensures err { IfErr result (λ fault. IsFaultOf (cost_fault (graph_tree graph.now)) fault) }
{
    let mut ports: Items<Kept> = Items::new(alloc);
    for place in 0..graph.ports.len() {
        let kept = compile_one(alloc, graph, place as u32 + 1, graph.ports.at(place))?;
        ports.push(kept)?;
    }
    Ok(Codes::new(ports))
}

// What is kept of the port of this number, from 1, of a graph; or its fault.
fn compile_one(alloc: Global, graph: &Graph, number: u32, port: &Port) -> Result<Kept, CostFault>
    requires fit { greatest_cost (port_tree port.now) ≤ most_cost → IsHandlerFit (graph_tree graph.now) (port_tree port.now) }
    requires few_vars { length graph.now.vars ≤ most_vars }
    requires few_outs { length port.now.outs ≤ most_outs }
    ensures kept { IfOk result (λ kept. IsCodeOf (graph_tree graph.now) (port_tree port.now) kept) }
    ensures no_fault { IfOk result (λ _. port_fault number (port_tree port.now) ≡ None) }
    ensures err { IfErr result (λ fault. IsFaultOf (port_fault number (port_tree port.now)) fault) }
{
    let cost = block_ticks(&port.body).saturating_add(1);
    if cost > MOST_TICKS {
        return Err(CostFault::Long {
            port: number,
            ticks: cost,
        });
    }
    let sends = sends_of_outs(number, port)?;
    let code = compile_port(alloc, graph, port)?;
    Ok(Kept { code, cost, sends })
}

// The most messages on each out of the port of this number, from 1; or the fault of the first out that has too many.
fn sends_of_outs(number: u32, port: &Port) -> Result<ArrayVec<u32, MOST_OUTS>, CostFault>
    requires { length port.now.outs ≤ most_outs }
    ensures sends { IfOk result (λ sends. AreSendsOf (port_tree port.now) sends.items) }
    ensures none { IfOk result (λ _. crowded_out (port_tree port.now) 1 port.now.outs ≡ None) }
    ensures err { IfErr result (λ fault. option_map (CostFault.Sends number) (crowded_out (port_tree port.now) 1 port.now.outs) ≡ Some fault) }
{
    let mut sends = ArrayVec::new();
    for place in 0..port.outs.len() {
        let out = place as u32 + 1;
        let most = sends_in_all(&port.body, out);
        if most > MOST_SENDS {
            return Err(CostFault::Sends { port: number, out });
        }
        sends.push(most);
    }
    Ok(sends)
}
