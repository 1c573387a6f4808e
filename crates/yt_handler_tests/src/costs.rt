//! The codes and costs of graphs, up to their limits.

ghost use Rattle.std.specs.Prelude.{◌≡◌, pos, IfOk};
ghost use Rattle.yt_graph.specs.Picture.{num, local, var, two, no_exprs, more_exprs, set_var, send, repeat, empty, more, block_tree};

use crate::graphs::{lone, pair};
use crate::nested::{Inner, Nested, ONE, handler};
use crate::trees::{alone, both, sends};
use std::alloc::{AllocError, Global};
use std::process::Abort;
use std::test::Fail;
use yt_code::Instr;
use yt_cost::{CostFault, compile};
use yt_graph::{Block, Expr, Op2, Stmt, stmt_repeat};

// s = s + v  repeat 2 max 3 { send o (v) }
fn adder(alloc: Global) -> Result<Block, AllocError>
    ensures { IfOk result (λ b. block_tree b.items ≡ more (set_var 0 (two Op2.Add (var 0) (local 0))) (more (repeat (num (pos 2)) 3 (more (send 1 (more_exprs (local 0) no_exprs)) empty)) empty)) }
{
    let value = both(alloc, Op2::Add, Expr::Var(0), Expr::Local(0))?;
    let turn = alone(alloc, sends(alloc, 1, Expr::Local(0))?)?;
    Ok(vec![in alloc;
        Stmt::SetVar { var: 0, value },
        stmt_repeat(Expr::Num(2), 3, turn),
    ]?)
}

#[test]
fn compiles_a_sum_and_a_loop(rt: HostRuntime) -> Result<(), Fail> {
    let alloc = rt.alloc();
    let graph = lone(alloc, 1, adder(alloc)?)?;
    let Ok(codes) = compile(alloc, &graph) else {
        return Err(Fail::from("not compiled"));
    };
    let wanted = [
        Instr::Var(0),
        Instr::Local(0),
        Instr::Two(Op2::Add),
        Instr::SetVar(0),
        Instr::Push(2),
        Instr::Loop { max: 3, to: 9 },
        Instr::Local(0),
        Instr::Send { out: 1, width: 1 },
        Instr::Again(6),
        Instr::End,
    ];
    assert_eq!(rt; codes.code(1).instrs(), wanted.as_slice());
    Ok(())
}

// What is answered for a graph of two ports.
#[derive(Clone, Copy, Debug, PartialEq, Eq)]
enum Answer {
    // The costs of both ports, the first one's sends on its second out, and how many instructions the second one has.
    Costs(u64, u64, u32, usize),
    Fault(CostFault),
}

// Both handlers of a graph, and its answer.
struct Row {
    first: Nested,
    second: Nested,
    wanted: Answer,
}

fn judged(alloc: Global, first: Nested, second: Nested) -> Result<Answer, Fail> {
    let first = handler(alloc, first)?;
    let second = handler(alloc, second)?;
    let graph = pair(alloc, first, second)?;
    match compile(alloc, &graph) {
        Ok(codes) => Ok(Answer::Costs(
            codes.cost(1),
            codes.cost(2),
            codes.sends(1, 2),
            codes.code(2).instrs().len(),
        )),
        Err(fault) => Ok(Answer::Fault(fault)),
    }
}

const ROWS: &[Row] = &[
    Row {
        first: ONE,
        second: ONE,
        wanted: Answer::Costs(3, 3, 0, 3),
    },
    Row {
        first: Nested {
            inner: Inner::Sum,
            turns: &[2, 58, 1321],
        },
        second: ONE,
        wanted: Answer::Costs(1_000_000, 3, 0, 3),
    },
    Row {
        first: Nested {
            inner: Inner::Negated,
            turns: &[31, 7874],
        },
        second: ONE,
        wanted: Answer::Fault(CostFault::Long {
            port: 1,
            ticks: 1_000_001,
        }),
    },
    Row {
        first: Nested {
            inner: Inner::One,
            turns: &[1000, 1000],
        },
        second: ONE,
        wanted: Answer::Fault(CostFault::Long {
            port: 1,
            ticks: 3_003_003,
        }),
    },
    Row {
        first: ONE,
        second: Nested {
            inner: Inner::One,
            turns: &[1000, 1000],
        },
        wanted: Answer::Fault(CostFault::Long {
            port: 2,
            ticks: 3_003_003,
        }),
    },
    Row {
        first: Nested {
            inner: Inner::Send,
            turns: &[],
        },
        second: Nested {
            inner: Inner::Sum,
            turns: &[3],
        },
        wanted: Answer::Costs(3, 18, 1, 8),
    },
    Row {
        first: Nested {
            inner: Inner::Send,
            turns: &[64],
        },
        second: Nested {
            inner: Inner::Send,
            turns: &[64],
        },
        wanted: Answer::Costs(195, 195, 64, 6),
    },
    Row {
        first: Nested {
            inner: Inner::Send,
            turns: &[65],
        },
        second: ONE,
        wanted: Answer::Fault(CostFault::Sends { port: 1, out: 2 }),
    },
    Row {
        first: Nested {
            inner: Inner::Send,
            turns: &[65],
        },
        second: Nested {
            inner: Inner::One,
            turns: &[1000, 1000],
        },
        wanted: Answer::Fault(CostFault::Sends { port: 1, out: 2 }),
    },
    Row {
        first: ONE,
        second: Nested {
            inner: Inner::Send,
            turns: &[13, 5],
        },
        wanted: Answer::Fault(CostFault::Sends { port: 2, out: 2 }),
    },
    Row {
        first: Nested {
            inner: Inner::Send,
            turns: &[1000, 1000],
        },
        second: ONE,
        wanted: Answer::Fault(CostFault::Long {
            port: 1,
            ticks: 3_003_003,
        }),
    },
    Row {
        first: Nested {
            inner: Inner::One,
            turns: &[10_000, 10_000, 10_000, 10_000],
        },
        second: ONE,
        wanted: Answer::Fault(CostFault::Long {
            port: 1,
            ticks: 30_003_000_300_030_003,
        }),
    },
    Row {
        first: Nested {
            inner: Inner::One,
            turns: &[10_000, 10_000, 10_000, 10_000, 10_000],
        },
        second: ONE,
        wanted: Answer::Fault(CostFault::Long {
            port: 1,
            ticks: u64::MAX,
        }),
    },
    Row {
        first: Nested {
            inner: Inner::Send,
            turns: &[10_000, 10_000, 10_000, 10_000, 10_000, 10_000],
        },
        second: Nested {
            inner: Inner::Send,
            turns: &[65],
        },
        wanted: Answer::Fault(CostFault::Long {
            port: 1,
            ticks: u64::MAX,
        }),
    },
];

// Checks each row.
fn judge(rt: &(impl Abort + AllocGlobal), rows: &[Row]) -> Result<(), Fail> {
    for row in rows {
        assert_eq!(rt; judged(rt.alloc(), row.first, row.second)?, row.wanted);
    }
    Ok(())
}

#[test]
fn answers_are_those_of_the_limits(rt: HostRuntime) -> Result<(), Fail> {
    judge(&rt, ROWS)
}
