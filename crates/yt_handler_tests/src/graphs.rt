//! Graphs around handlers.

ghost use Rattle.std.specs.Prelude.{◌≡◌, ◌≤◌, [], ◌∷◌, length, IfOk};
ghost use Rattle.yt_graph.specs.Picture.{block_tree, port_tree, graph_tree};
ghost use Rattle.yt_graph.specs.Cost.{block_cost};
ghost use Rattle.yt_handler_tests.specs.Graphs.{out_of, var_of, vars_of, port_of, lone_graph, graph_of_two, IsPlain, IsLone};

use std::alloc::{AllocError, Global};
use yt_graph::{
    Block, Feed, Graph, Input, Inputs, OutHead, OutHeads, Outputs, Port, Ports, Var, Vars,
};
use yt_list::{Name, Names};

// A name of one letter.
fn letter(alloc: Global, byte: u8) -> Result<Name, AllocError>
    ensures { IfOk result (λ name. name ≡ byte ∷ []) }
{
    Ok(Name::from_vec(vec![in alloc; byte]?))
}

fn out(alloc: Global, name: u8, width: u32) -> Result<OutHead, AllocError>
    ensures { IfOk result (λ o. o ≡ out_of (name ∷ []) width) }
{
    Ok(OutHead {
        name: letter(alloc, name)?,
        width,
        every: 1,
    })
}

fn var(alloc: Global, name: u8) -> Result<Var, AllocError>
    ensures { IfOk result (λ v. v ≡ var_of (name ∷ [])) }
{
    Ok(Var {
        process: letter(alloc, b'p')?,
        name: letter(alloc, name)?,
        start: 0,
    })
}

// No variable, one, or three.
fn vars(alloc: Global, count: u32) -> Result<Vars, AllocError>
    ensures { IfOk result (λ vars. vars ≡ vars_of count) }
{
    if count == 0 {
        return Ok(Vars::new(alloc));
    }
    if count == 1 {
        return Ok(Vars::from_vec(vec![in alloc; var(alloc, b's')?]?));
    }
    let three = vec![in alloc; var(alloc, b's')?, var(alloc, b't')?, var(alloc, b'u')?]?;
    Ok(Vars::from_vec(three))
}

fn port(alloc: Global, vars: u32, name: u8, body: Block) -> Result<Port, AllocError>
    ensures { IfOk result (λ p. port_tree p ≡ port_of vars (name ∷ []) (block_tree body.items)) }
{
    let outs = vec![in alloc;
        out(alloc, b'o', 1)?,
        out(alloc, b'e', 1)?,
        out(alloc, b'b', 8)?,
    ]?;
    Ok(Port {
        process: letter(alloc, b'p')?,
        name: letter(alloc, name)?,
        feed: Feed::Input(1),
        group: if vars == 0 { 0 } else { 1 },
        params: 1,
        locals: 2,
        outs: OutHeads::from_vec(outs),
        body,
    })
}

fn inputs(alloc: Global) -> Result<Inputs, AllocError>
    ensures { IfOk result (λ is. is ≡ (record { name = 116 ∷ []; width = 1; period = 1 }) ∷ []) }
{
    let input = Input {
        name: letter(alloc, b't')?,
        width: 1,
        period: 1,
    };
    Ok(Inputs::from_vec(vec![in alloc; input]?))
}

/// The graph of one port, whose process has so many variables.
pub(crate) fn lone(alloc: Global, count: u32, body: Block) -> Result<Graph, AllocError>
    requires plain { IsPlain count 8 (block_tree body.items) }
    requires all_vars { length (vars_of count) ≡ count }
    requires ticks { block_cost (block_tree body.items) ≤ 1000 }
    ensures is { IfOk result (λ g. graph_tree g ≡ lone_graph count (block_tree body.items)) }
    ensures lone { IfOk result (λ g. IsLone count (graph_tree g)) }
{
    let ports = vec![in alloc; port(alloc, count, b'a', body)?]?;
    Ok(Graph {
        inputs: inputs(alloc)?,
        outputs: Outputs::new(alloc),
        groups: Names::from_vec(vec![in alloc; letter(alloc, b'r')?]?),
        vars: vars(alloc, count)?,
        ports: Ports::from_vec(ports),
    })
}

/// The graph of two ports without variables.
pub(crate) fn pair(alloc: Global, first: Block, second: Block) -> Result<Graph, AllocError>
    ensures { IfOk result (λ g. graph_tree g ≡ graph_of_two (block_tree first.items) (block_tree second.items)) }
{
    let ports = vec![in alloc; port(alloc, 0, b'a', first)?, port(alloc, 0, b'b', second)?]?;
    Ok(Graph {
        inputs: inputs(alloc)?,
        outputs: Outputs::new(alloc),
        groups: Names::from_vec(vec![in alloc; letter(alloc, b'r')?]?),
        vars: Vars::new(alloc),
        ports: Ports::from_vec(ports),
    })
}
