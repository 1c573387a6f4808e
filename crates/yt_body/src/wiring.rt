//! The wires of a graph.
ghost use Rattle.std.specs.Prelude.{◌≡◌, ◌≤◌, [], ◌∷◌, ◌++◌, length, map, Some, IfOk, OnOk, if◌then◌else◌};
ghost use Rattle.yt_graph.specs.Limits.{most_outputs, most_ports};
ghost use Rattle.yt_graph.specs.Picture.{graph_tree, port_tree, PortTree};
ghost use Rattle.yt_list.specs.Numbered.{numbered};
ghost use Rattle.yt_body.specs.Wiring.{is_fed, outputs_fed, ports_fed, wires_of, wires_of_outs};
ghost use Rattle.yt_body.specs.Inside.OneWire.{IsOutOf, IsWireOf};

use std::alloc::{AllocError, Global};
use yt_chan::{Nums, Wire};
use yt_graph::{Feed, Output, Port};
use yt_rates::Accepted;

/// The wires of a graph: of each port by number, the outs by number. `Err` comes where memory ran out.
pub fn wires_of(alloc: Global, accepted: &Accepted) -> Result<Vec<Wire>, AllocError>
    ensures { IfOk result (λ wires. wires.items ≡ wires_of (graph_tree accepted.now.graph)) }
{
    let mut wires = Vec::new(alloc);
    let ports = accepted.graph().ports.len();
    for place in 0..ports {
        let port = place as u32 + 1;
        add_wires(alloc, accepted, port, &mut wires)?;
    }
    Ok(wires)
}

/// Adds the wires of the outs of the port of this number, from 1. The caller shows that the port is there.
fn add_wires(
    alloc: Global,
    accepted: &Accepted,
    port: u32,
    wires: &mut Vec<Wire>,
) -> Result<(), AllocError>
    requires { (1 ≤ port) × (port ≤ length accepted.now.graph.ports) }
    ensures { OnOk result ((p : PortTree) → numbered (graph_tree accepted.now.graph).ports port ≡ Some p
        → wires.new.items ≡ wires.old.items ++ wires_of_outs (graph_tree accepted.now.graph) port p 1 p.outs) }
{
    let graph = accepted.graph();
    let outs = graph.ports.at(port as usize - 1).outs.len();
    for place in 0..outs {
        let out = place as u32 + 1;
        let wire = wire_of(alloc, accepted, port, out)?;
        wires.push(wire)?;
    }
    Ok(())
}

/// The wire of an out of a port, both by their numbers from 1. The caller shows that both are there. `Err` comes where memory ran
/// out.
fn wire_of(alloc: Global, accepted: &Accepted, port: u32, out: u32) -> Result<Wire, AllocError>
    requires { IsOutOf (graph_tree accepted.now.graph) port out }
    ensures { IfOk result (IsWireOf (graph_tree accepted.now.graph) port out) }
{
    let graph = accepted.graph();
    let codes = accepted.codes();
    let rates = accepted.rates();
    let head = graph.ports.at(port as usize - 1).outs.at(out as usize - 1);
    let ports = ports_fed(alloc, port, out, graph.ports.as_slice())?;
    let outputs = outputs_fed(alloc, port, out, graph.outputs.as_slice())?;
    Ok(Wire {
        port,
        out,
        width: head.width,
        sends: codes.sends(port, out),
        every: head.every,
        period: rates.period(port),
        gap: rates.gap(port, out),
        ports,
        outputs,
    })
}

/// The numbers of the ports that an out feeds. `Err` comes where memory ran out.
fn ports_fed(alloc: Global, port: u32, out: u32, ports: &[Port]) -> Result<Nums, AllocError>
    requires { length ports.now ≤ most_ports }
    ensures { IfOk result (λ numbers. numbers ≡ ports_fed port out (map port_tree ports.now)) }
{
    let mut numbers = Nums::new(alloc);
    for (place, fed) in ports.iter().enumerate() {
        add_where(&mut numbers, place as u32 + 1, is_fed(fed.feed, port, out))?;
    }
    Ok(numbers)
}

/// The numbers of the outputs that show an out. `Err` comes where memory ran out.
fn outputs_fed(alloc: Global, port: u32, out: u32, outputs: &[Output]) -> Result<Nums, AllocError>
    requires { length outputs.now ≤ most_outputs }
    ensures { IfOk result (λ numbers. numbers ≡ outputs_fed port out outputs.now) }
{
    let mut numbers = Nums::new(alloc);
    for (place, output) in outputs.iter().enumerate() {
        let shows = output.port == port && output.out == out;
        add_where(&mut numbers, place as u32 + 1, shows)?;
    }
    Ok(numbers)
}

/// Whether a feed is an out of a port, both by their numbers from 1.
fn is_fed(feed: Feed, port: u32, out: u32) -> bool
    ensures { result ≡ is_fed port out feed }
{
    match feed {
        Feed::Input(_) => false,
        Feed::Out { port: p, out: o } => p == port && o == out,
    }
}

/// Adds a number where a test holds. `Err` comes where memory ran out.
fn add_where(numbers: &mut Nums, number: u32, holds: bool) -> Result<(), AllocError>
    ensures { OnOk result (numbers.new ≡ numbers.old ++ (if holds then number ∷ [] else [])) }
{
    if holds {
        numbers.push(number)?;
    }
    Ok(())
}
