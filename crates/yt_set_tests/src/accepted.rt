//! Which graphs are accepted, and why the others aren't.
ghost use Rattle.std.specs.Prelude.{IfOk};
ghost use Rattle.yt_graph.specs.Picture.{graph_tree};
ghost use Rattle.yt_graph.specs.WellFormed.{IsWellFormed};
ghost use Rattle.yt_cost.specs.CodeFit.{HasNoCalls};

use std::alloc::Global;
use std::process::Abort;
use std::test::Fail;
use yt_base::Text;
use yt_cost::compile;
use yt_fits::{Breach, LoadSum, Unfit};
use yt_graph::Graph;
use yt_lexer::lex;
use yt_names::resolve;
use yt_parser::parse;
use yt_rates::{AcceptCause, Accepted, NotAccepted, RateFault, accept};

/// What is told of a graph.
#[derive(Debug, PartialEq, Eq, Drop)]
enum Outcome {
    /// It is accepted, with so many tasks of this load.
    Accepted(u32, LoadSum),
    /// Its rates have this fault.
    Rate(RateFault),
    /// Its tasks don't fit.
    Unfit(Unfit),
}

/// Graphs, and what is told of each. A handler's end, a number, a name, an operator, a `let`, an assignment and a `send` take a tick
/// each, and a `repeat` two and in each turn one more.
const GRAPHS: &[(&str, Outcome)] = &[
    ("", Outcome::Accepted(0, LoadSum { part: 0, whole: 1 })),
    (
        "input i(1) period 3 process p { port a from i (v) out o(1) { send o (v) } }",
        Outcome::Accepted(1, LoadSum { part: 3, whole: 3 }),
    ),
    (
        "input i(1) period 1000000 process p { port a from i (v) out o(1) every 2 { send o (v) } port b from p.a.o (v) {} }",
        Outcome::Rate(RateFault::Over {
            port: 2,
            period: 2_000_000,
        }),
    ),
    (
        "input i(1) period 9 process p { port a from i (v) out o(1) {} }",
        Outcome::Rate(RateFault::Zero { port: 1, out: 1 }),
    ),
    (
        "input i(1) period 1000000 process p { port a from i (v) out o(1) every 1 { send o (v) } port b from p.a.o (v) out o(1) { send o (v) } port c from p.b.o (v) out o(1) { send o (v) } port d from p.c.o (v) out o(1) { send o (v) } port e from p.d.o (v) out o(1) { send o (v) } }",
        Outcome::Rate(RateFault::Span { port: 5 }),
    ),
    (
        "input i(1) period 999983 input j(1) period 999979 input k(1) period 999961 input l(1) period 999959 input m(1) period 999953 input n(1) period 999931 process p { port a from i (v) {} port b from j (v) {} port c from k (v) {} port d from l (v) {} port e from m (v) {} port f from n (v) {} }",
        Outcome::Unfit(Unfit::Hyperperiod(6)),
    ),
    (
        "input i(1) period 2 process p { port a from i (v) out o(1) { send o (v) } }",
        Outcome::Unfit(Unfit::Overload(LoadSum { part: 3, whole: 2 })),
    ),
    (
        "input i(1) period 8 input j(1) period 100 process p { var x = 0 port a from i (v) { x = v } port b from j (v) { repeat 2 max 2 { x = x + 1 } } }",
        Outcome::Unfit(Unfit::Interval(Breach {
            task: 2,
            len: 9,
            need: 16,
        })),
    ),
];

/// The graph of a text without a fault, cut off where it is long.
fn graph_of(alloc: Global, text: &[u8]) -> Result<Graph, Fail>
    ensures { IfOk result (λ g. IsWellFormed (graph_tree g) × HasNoCalls (graph_tree g)) }
{
    let text = &text[..text.len().min(10_000)];
    let Ok(tokens) = lex(alloc, text) else {
        return Err("a fault of tokens".into());
    };
    let Ok(ast) = parse(alloc, text, &tokens) else {
        return Err("a fault of syntax".into());
    };
    match resolve(alloc, &ast, &[]) {
        Ok(graph) => Ok(graph),
        Err(_) => Err("a fault of names".into()),
    }
}

/// What is told where a graph was judged, and how many ports it has then, refused or not.
fn told(answer: Result<Accepted, NotAccepted>) -> Result<(Outcome, usize), Fail> {
    match answer {
        Ok(accepted) => {
            let outcome = Outcome::Accepted(accepted.set().len(), accepted.load());
            Ok((outcome, accepted.graph().ports.len()))
        }
        Err(refused) => Ok((cause_told(refused.cause)?, refused.graph.ports.len())),
    }
}

/// What is told where a graph is refused for this cause.
fn cause_told(cause: AcceptCause) -> Result<Outcome, Fail> {
    match cause {
        AcceptCause::Rate(fault) => Ok(Outcome::Rate(fault)),
        AcceptCause::Unfit(why, _) => Ok(Outcome::Unfit(why)),
        AcceptCause::Memory => Err("no memory".into()),
    }
}

/// What is told of the graph of a text, which keeps its ports.
fn judge_graph(alloc: Global, text: &[u8]) -> Result<Outcome, Fail> {
    let graph = graph_of(alloc, text)?;
    let ports = graph.ports.len();
    let Ok(codes) = compile(alloc, &graph) else {
        return Err("a fault of costs".into());
    };
    let (outcome, left) = told(accept(alloc, graph, codes))?;
    if left != ports {
        return Err("another graph".into());
    }
    Ok(outcome)
}

/// Checks what is told of each graph.
fn judge_graphs(rt: &(impl Abort + AllocGlobal), rows: &[(&str, Outcome)]) -> Result<(), Fail> {
    for (text, expected) in rows {
        let outcome = judge_graph(rt.alloc(), text.as_bytes())?;
        assert_eq!(rt; outcome, *expected, "at {text}");
    }
    Ok(())
}

#[test]
fn graphs_are_accepted_or_refused(rt: HostRuntime) -> Result<(), Fail> {
    judge_graphs(&rt, GRAPHS)
}

/// A graph of as many ports as a graph may have, each of which takes a tick of 64.
#[test]
fn sixty_four_ports_that_take_all_ticks_are_accepted(rt: HostRuntime) -> Result<(), Fail> {
    let mut text = Text::new(rt.alloc());
    text.put(b"input i(1) period 64 process p {")?;
    for n in 1..65 {
        text.put(b" port a")?;
        text.put_u64(n)?;
        text.put(b" from i (v) {}")?;
    }
    text.put(b" }")?;
    let full = Outcome::Accepted(
        64,
        LoadSum {
            part: 64,
            whole: 64,
        },
    );
    assert_eq!(rt; judge_graph(rt.alloc(), text.as_slice())?, full);
    Ok(())
}
