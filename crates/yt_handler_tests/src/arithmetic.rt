//! A handler at the edges of what numbers can do.

ghost use Rattle.std.specs.Prelude.{◌≡◌, [], ◌∷◌, map, IfOk};
ghost use Rattle.yt_graph.specs.Picture.{exprs_tree, block_tree, port_tree, graph_tree};
ghost use Rattle.yt_handler_tests.specs.Arithmetic.{arithmetic_values, arithmetic_block, arithmetic_port, arithmetic_graph};

use crate::meanings::message;
use crate::trees::{alone, assigned, both};
use std::alloc::{AllocError, Global};
use std::test::Fail;
use yt_graph::{
    Block, Expr, Exprs, Feed, Graph, Input, Inputs, Op2, OutHead, OutHeads, Output, Outputs, Port,
    Ports, Stmt, Vars, stmt_repeat,
};
use yt_list::{Name, Names};
use yt_mean::handle;

fn name(alloc: Global, text: &[u8]) -> Result<Name, AllocError>
    ensures { IfOk result (λ n. n ≡ text.now) }
{
    Ok(Name::from_vec(Vec::from_slice(alloc, text)?))
}

fn values(alloc: Global) -> Result<Exprs, AllocError>
    ensures { IfOk result (λ es. exprs_tree es.items ≡ arithmetic_values) }
{
    let least = Expr::Neg(Box::new(alloc, Expr::Num(i64::MAX))?);
    Ok(vec![in alloc;
        both(alloc, Op2::Div, Expr::Local(0), Expr::Num(0))?,
        both(alloc, Op2::Rem, Expr::Local(0), Expr::Num(0))?,
        both(alloc, Op2::Add, Expr::Num(i64::MAX), Expr::Num(1))?,
        both(alloc, Op2::Sub, least, Expr::Num(2))?,
        Expr::Local(1),
    ]?)
}

fn body(alloc: Global) -> Result<Block, AllocError>
    ensures { IfOk result (λ b. block_tree b.items ≡ arithmetic_block) }
{
    let count = Expr::Neg(Box::new(alloc, Expr::Num(3))?);
    let next = both(alloc, Op2::Add, Expr::Local(1), Expr::Num(1))?;
    let turns = stmt_repeat(count, 4, alone(alloc, assigned(next))?);
    let sends = Stmt::Send {
        out: 1,
        values: values(alloc)?,
    };
    Ok(vec![in alloc; assigned(Expr::Num(0)), turns, sends]?)
}

fn ports(alloc: Global) -> Result<Ports, AllocError>
    ensures { IfOk result (λ ps. map port_tree ps ≡ arithmetic_port ∷ []) }
{
    let out = OutHead {
        name: name(alloc, b"o")?,
        width: 5,
        every: 1,
    };
    let port = Port {
        process: name(alloc, b"p")?,
        name: name(alloc, b"a")?,
        feed: Feed::Input(1),
        group: 0,
        params: 1,
        locals: 2,
        outs: OutHeads::from_vec(vec![in alloc; out]?),
        body: body(alloc)?,
    };
    Ok(Ports::from_vec(vec![in alloc; port]?))
}

fn graph(alloc: Global) -> Result<Graph, AllocError>
    ensures { IfOk result (λ g. graph_tree g ≡ arithmetic_graph) }
{
    let input = Input {
        name: name(alloc, b"tick")?,
        width: 1,
        period: 100,
    };
    let output = Output {
        name: name(alloc, b"led")?,
        port: 1,
        out: 1,
    };
    Ok(Graph {
        inputs: Inputs::from_vec(vec![in alloc; input]?),
        outputs: Outputs::from_vec(vec![in alloc; output]?),
        groups: Names::new(alloc),
        vars: Vars::new(alloc),
        ports: ports(alloc)?,
    })
}

#[test]
fn numbers_at_their_edges(rt: HostRuntime) -> Result<(), Fail> {
    let alloc = rt.alloc();
    let graph = graph(alloc)?;
    let done = handle(alloc, &graph, 1, &[7], &[])?;
    // 2 for the local, 3 for the loop without turns, 15 for the message, and 1 for the end.
    assert_eq!(rt; (done.ticks, done.vars.len(), done.sends.len()), (21, 0, 1));
    assert_eq!(rt;
        message(&done, 0)?,
        (1, [0, 0, i64::MIN, i64::MAX, 0].as_slice())
    );
    Ok(())
}
