//! The rates of a graph.
ghost use Rattle.std.specs.Prelude.{◌≡◌, [], ◌∷◌, IfOk};
ghost use Rattle.yt_graph.specs.Picture.{block_tree, empty, graph_tree, more, port_tree, stmt_tree};
ghost use Rattle.yt_set_tests.specs.Rated.{passes, port_of, rated_graph, ten, three};

use std::alloc::{AllocError, Global};
use std::test::Fail;
use yt_cost::compile;
use yt_graph::{
    Block, Expr, Feed, Graph, Input, Inputs, OutHead, OutHeads, Outputs, Port, Ports, Stmt, Vars,
    stmt_repeat,
};
use yt_list::{Name, Names};
use yt_rates::rates;

/// A name of one letter.
fn letter(alloc: Global, byte: u8) -> Result<Name, AllocError>
    ensures { IfOk result (λ name. name ≡ byte ∷ []) }
{
    Ok(Name::from_vec(vec![in alloc; byte]?))
}

/// `send o (v)`
fn sending(alloc: Global) -> Result<Stmt, AllocError>
    ensures { IfOk result (λ s. stmt_tree s ≡ passes) }
{
    let values = vec![in alloc; Expr::Local(0)]?;
    Ok(Stmt::Send { out: 1, values })
}

/// `repeat 10 max 10 { send o (v) }`
fn ten_messages(alloc: Global) -> Result<Block, AllocError>
    ensures { IfOk result (λ b. block_tree b.items ≡ ten) }
{
    let turn = vec![in alloc; sending(alloc)?]?;
    Ok(vec![in alloc; stmt_repeat(Expr::Num(10), 10, turn)]?)
}

/// `send o (v)`, three times.
fn three_messages(alloc: Global) -> Result<Block, AllocError>
    ensures { IfOk result (λ b. block_tree b.items ≡ three) }
{
    Ok(vec![in alloc; sending(alloc)?, sending(alloc)?, sending(alloc)?]?)
}

/// A port of this name, whose one out passes on the messages of each `every`-th job.
fn port(alloc: Global, name: u8, feed: Feed, every: u32, body: Block) -> Result<Port, AllocError>
    ensures { IfOk result (λ p. port_tree p ≡ port_of (name ∷ []) feed every (block_tree body.items)) }
{
    let out = OutHead {
        name: letter(alloc, b'o')?,
        width: 1,
        every,
    };
    Ok(Port {
        process: letter(alloc, b'p')?,
        name: letter(alloc, name)?,
        feed,
        group: 0,
        params: 1,
        locals: 1,
        outs: OutHeads::from_vec(vec![in alloc; out]?),
        body,
    })
}

/// The graph of an input of period 10 and two ports, of which the second is fed by the first.
fn graph(alloc: Global) -> Result<Graph, AllocError>
    ensures { IfOk result (λ g. graph_tree g ≡ rated_graph) }
{
    let input = Input {
        name: letter(alloc, b't')?,
        width: 1,
        period: 10,
    };
    let first = port(alloc, b'a', Feed::Input(1), 10, ten_messages(alloc)?)?;
    let fed = Feed::Out { port: 1, out: 1 };
    let second = port(alloc, b'b', fed, 2, three_messages(alloc)?)?;
    Ok(Graph {
        inputs: Inputs::from_vec(vec![in alloc; input]?),
        outputs: Outputs::new(alloc),
        groups: Names::new(alloc),
        vars: Vars::new(alloc),
        ports: Ports::from_vec(vec![in alloc; first, second]?),
    })
}

#[test]
fn a_table_tells_period_start_and_gaps(rt: HostRuntime) -> Result<(), Fail> {
    let alloc = rt.alloc();
    let graph = graph(alloc)?;
    let Ok(codes) = compile(alloc, &graph) else {
        return Err("a fault of costs".into());
    };
    let Ok(table) = rates(alloc, &graph, &codes) else {
        return Err("a fault of rates".into());
    };
    // Ten messages in ten periods of 10 are 10 apart, and the last comes 100 ticks after the message that the job handles.
    assert_eq!(rt; table.period(2), 10);
    assert_eq!(rt; table.start(2), 100);
    assert_eq!(rt; table.gap(2, 1), 6);
    Ok(())
}
