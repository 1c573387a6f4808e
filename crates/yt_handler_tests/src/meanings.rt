//! What handlers mean, by a plain interpreter.

ghost use Rattle.std.specs.Prelude.{◌≡◌, pos, length, IfOk};
ghost use Rattle.yt_graph.specs.Picture.{num, local, two, no_exprs, more_exprs, send, if_else, empty, more, expr_tree, block_tree, graph_tree};
ghost use Rattle.yt_handler_tests.specs.Graphs.{IsPlainValue, IsLone};

use crate::graphs::lone;
use crate::trees::{alone, both, counts, sends};
use std::alloc::{AllocError, Global};
use std::process::Abort;
use std::test::Fail;
use yt_graph::{Block, Expr, Graph, Op2, Stmt, expr_call, stmt_if, stmt_if_else, stmt_repeat};
use yt_mean::{Handled, handle};

const LEAST: i64 = i64::MIN;

const MOST: i64 = i64::MAX;

/// Handles a message of one number on the only port of a graph, under these variables.
fn handled(alloc: Global, graph: &Graph, value: i64, vars: &[i64]) -> Result<Handled, AllocError>
    requires { IsLone (length vars.now) (graph_tree graph.now) }
{
    handle(alloc, graph, 1, &[value], vars)
}

/// The out and the numbers of a message that was sent, by place from 0.
pub(crate) fn message(done: &Handled, n: usize) -> Result<(u32, &[i64]), Fail> {
    if n >= done.sends.len() {
        return Err(Fail::from("not sent"));
    }
    let item = done.sends.at(n);
    Ok((item.out, item.values.as_slice()))
}

/// The value of an expression, where the parameter is 7, and the ticks of its handling: one for its sending, and one for the
/// end.
fn sent(alloc: Global, e: Expr) -> Result<(i64, u64), Fail>
    requires { IsPlainValue (expr_tree e) }
{
    let body = alone(alloc, sends(alloc, 1, e)?)?;
    let done = handled(alloc, &lone(alloc, 0, body)?, 7, &[])?;
    match message(&done, 0)? {
        (1, [value]) => Ok((*value, done.ticks)),
        _ => Err(Fail::from("another message")),
    }
}

/// An operator, its left side, its right side, and its value.
const OPERATORS: &[(Op2, i64, i64, i64)] = &[
    (Op2::Add, MOST, 1, LEAST),
    (Op2::Add, LEAST, -1, MOST),
    (Op2::Sub, LEAST, 1, MOST),
    (Op2::Sub, MOST, -1, LEAST),
    (Op2::Mul, 3, -4, -12),
    (Op2::Mul, MOST, 2, -2),
    (Op2::Mul, LEAST, -1, LEAST),
    (Op2::Div, 7, 0, 0),
    (Op2::Div, LEAST, 0, 0),
    (Op2::Div, LEAST, -1, LEAST),
    (Op2::Div, -7, 2, -3),
    (Op2::Div, 7, -2, -3),
    (Op2::Div, -7, -2, 3),
    (Op2::Rem, 7, 0, 0),
    (Op2::Rem, LEAST, 0, 0),
    (Op2::Rem, LEAST, -1, 0),
    (Op2::Rem, -7, 2, -1),
    (Op2::Rem, 7, -2, 1),
    (Op2::Rem, -7, -2, -1),
    (Op2::Lt, LEAST, MOST, 1),
    (Op2::Lt, 2, 2, 0),
    (Op2::Le, 2, 2, 1),
    (Op2::Le, 3, 2, 0),
    (Op2::Gt, 3, 2, 1),
    (Op2::Gt, 2, 2, 0),
    (Op2::Ge, 2, 2, 1),
    (Op2::Ge, LEAST, MOST, 0),
    (Op2::Eq, -5, -5, 1),
    (Op2::Eq, LEAST, MOST, 0),
    (Op2::Ne, -5, 5, 1),
    (Op2::Ne, -5, -5, 0),
    (Op2::And, -1, 2, 1),
    (Op2::And, -1, 0, 0),
    (Op2::And, 0, 2, 0),
    (Op2::Or, 0, -5, 1),
    (Op2::Or, -5, 0, 1),
    (Op2::Or, 0, 0, 0),
];

/// Checks each operator's value.
fn judge_operators(
    rt: &(impl Abort + AllocGlobal),
    rows: &[(Op2, i64, i64, i64)],
) -> Result<(), Fail> {
    let alloc = rt.alloc();
    for (op, x, y, value) in rows {
        // Two numbers and the operator: 1 + 1 + 1, and 2.
        let e = both(alloc, *op, Expr::Num(*x), Expr::Num(*y))?;
        assert_eq!(rt; sent(alloc, e)?, (*value, 5), "{op:?} of {x} and {y}");
    }
    Ok(())
}

#[test]
fn operators_have_their_values(rt: HostRuntime) -> Result<(), Fail> {
    judge_operators(&rt, OPERATORS)
}

/// A number, its negative, and whether it is 0.
const ONE_SIDE: &[(i64, i64, i64)] = &[
    (5, -5, 0),
    (-5, 5, 0),
    (0, 0, 1),
    (MOST, -MOST, 0),
    (LEAST, LEAST, 0),
];

/// Checks what is done to each number.
fn judge_one_side(rt: &(impl Abort + AllocGlobal), rows: &[(i64, i64, i64)]) -> Result<(), Fail> {
    let alloc = rt.alloc();
    for (x, negative, negated) in rows {
        // A number and what is done to it: 1 + 1, and 2.
        let e = Expr::Neg(Box::new(alloc, Expr::Num(*x))?);
        assert_eq!(rt; sent(alloc, e)?, (*negative, 4), "the sign of {x}");
        let e = Expr::Not(Box::new(alloc, Expr::Num(*x))?);
        assert_eq!(rt; sent(alloc, e)?, (*negated, 4), "not {x}");
    }
    Ok(())
}

#[test]
fn one_side_has_its_values(rt: HostRuntime) -> Result<(), Fail> {
    judge_one_side(&rt, ONE_SIDE)?;
    // The parameter, and a local that was not set: 1, and 2.
    assert_eq!(rt; sent(rt.alloc(), Expr::Local(0))?, (7, 3));
    assert_eq!(rt; sent(rt.alloc(), Expr::Local(1))?, (0, 3));
    Ok(())
}

#[test]
fn calls_have_their_values(rt: HostRuntime) -> Result<(), Fail> {
    let alloc = rt.alloc();
    for (code, x, y, value) in [
        (1, -3, 2, -3),
        (1, 2, -3, -3),
        (2, -3, 2, 2),
        (2, 2, -3, 2),
        (3, -3, 2, 5),
        (3, 2, -3, 5),
        (3, LEAST, MOST, -1),
        (4, -3, 2, 3),
        (5, -3, 2, -1),
    ] {
        // Two arguments and the call: 1 + 1 + 3, and 2.
        let args = vec![in alloc; Expr::Num(x), Expr::Num(y)]?;
        assert_eq!(rt;
            sent(alloc, expr_call(1, code, 3, args))?,
            (value, 7),
            "{code} of {x} and {y}"
        );
    }
    for (code, x, value) in [
        (1, 5, 0),
        (2, -5, 0),
        (3, LEAST, LEAST),
        (4, 5, 5),
        (4, -5, 5),
        (4, LEAST, LEAST),
        (5, LEAST, -1),
        (5, 0, 0),
        (5, MOST, 1),
    ] {
        // One argument and the call: 1 + 3, and 2.
        let args = vec![in alloc; Expr::Num(x)]?;
        assert_eq!(rt;
            sent(alloc, expr_call(1, code, 3, args))?,
            (value, 6),
            "{code} of {x}"
        );
    }
    Ok(())
}

#[test]
fn a_loop_turns_at_most_as_often_as_it_may(rt: HostRuntime) -> Result<(), Fail> {
    let alloc = rt.alloc();
    // repeat v max 4 { s = s + 1 }
    let body = alone(alloc, stmt_repeat(Expr::Local(0), 4, counts(alloc)?))?;
    let graph = lone(alloc, 1, body)?;
    for (count, turns) in [
        (LEAST, 0),
        (-3, 0),
        (0, 0),
        (1, 1),
        (4, 4),
        (5, 4),
        (MOST, 4),
    ] {
        // The count and its tick, five ticks a turn, and the end: 2 + 5 * turns + 1.
        let done = handled(alloc, &graph, count, &[10])?;
        assert_eq!(rt;
            done.vars.as_slice(),
            [10 + turns].as_slice(),
            "a count of {count}"
        );
        assert_eq!(rt; done.ticks, 3 + 5 * turns as u64, "a count of {count}");
    }
    Ok(())
}

#[test]
fn loops_stand_in_loops(rt: HostRuntime) -> Result<(), Fail> {
    let alloc = rt.alloc();
    // repeat v max 9 { repeat s + 1 max 2 { s = s + 1 } }
    let count = both(alloc, Op2::Add, Expr::Var(0), Expr::Num(1))?;
    let inner = alone(alloc, stmt_repeat(count, 2, counts(alloc)?))?;
    let body = alone(alloc, stmt_repeat(Expr::Local(0), 9, inner))?;
    // The variable goes from 0 to 1, then to 3, then to 5, since a count is taken once. The turns of the outer loop take
    // 3 + 1 + 5 * (1, 2 or 2) ticks, and one more: 10 + 15 + 15. With the outer count and the end: 2 + 40 + 1.
    let done = handled(alloc, &lone(alloc, 1, body)?, 3, &[0])?;
    assert_eq!(rt; done.vars.as_slice(), [5].as_slice());
    assert_eq!(rt; done.ticks, 43);
    Ok(())
}

/// if v < 10 { send 1 (v) } else { send 2 (0) send 2 (v) }
fn splits(alloc: Global) -> Result<Block, AllocError>
    ensures { IfOk result (λ b.
        block_tree b.items
        ≡ more
        (if_else (two Op2.Lt (local 0) (num (pos 10)))
        (more (send 1 (more_exprs (local 0) no_exprs)) empty)
        (more (send 2 (more_exprs (num (pos 0)) no_exprs))
        (more (send 2 (more_exprs (local 0) no_exprs)) empty)))
        empty) }
{
    let less = both(alloc, Op2::Lt, Expr::Local(0), Expr::Num(10))?;
    let yes = alone(alloc, sends(alloc, 1, Expr::Local(0))?)?;
    let zero = sends(alloc, 2, Expr::Num(0))?;
    let no = vec![in alloc; zero, sends(alloc, 2, Expr::Local(0))?]?;
    alone(alloc, stmt_if_else(less, yes, no))
}

#[test]
fn a_test_takes_its_branch(rt: HostRuntime) -> Result<(), Fail> {
    let alloc = rt.alloc();
    let graph = lone(alloc, 0, splits(alloc)?)?;
    // The test and its tick, the first branch and its tick, and the end: 4 + 3 + 1.
    let done = handled(alloc, &graph, 9, &[])?;
    assert_eq!(rt; (done.sends.len(), done.ticks), (1, 8));
    assert_eq!(rt; message(&done, 0)?, (1, [9].as_slice()));
    // The test and its tick, the second branch, and the end: 4 + 4 + 1.
    let done = handled(alloc, &graph, 10, &[])?;
    assert_eq!(rt; (done.sends.len(), done.ticks), (2, 9));
    assert_eq!(rt; message(&done, 0)?, (2, [0].as_slice()));
    assert_eq!(rt; message(&done, 1)?, (2, [10].as_slice()));
    Ok(())
}

#[test]
fn a_test_alone_takes_its_block(rt: HostRuntime) -> Result<(), Fail> {
    let alloc = rt.alloc();
    // if v { s = s + 1 }
    let body = alone(alloc, stmt_if(Expr::Local(0), counts(alloc)?))?;
    let graph = lone(alloc, 1, body)?;
    // The test and its tick, the block where it's taken, and the end: 2 + 4 + 1, or 2 + 1.
    for (v, s, ticks) in [(1, 11, 7), (-1, 11, 7), (LEAST, 11, 7), (0, 10, 3)] {
        let done = handled(alloc, &graph, v, &[10])?;
        assert_eq!(rt; done.vars.as_slice(), [s].as_slice(), "a test of {v}");
        assert_eq!(rt; done.ticks, ticks, "a test of {v}");
    }
    Ok(())
}

#[test]
fn eight_values_stand_in_order(rt: HostRuntime) -> Result<(), Fail> {
    let alloc = rt.alloc();
    // let x = v  s = 4  send 3 (1, 2, x, s, 5, 6, v, 8)
    let values = vec![in alloc;
        Expr::Num(1),
        Expr::Num(2),
        Expr::Local(1),
        Expr::Var(1),
        Expr::Num(5),
        Expr::Num(6),
        Expr::Local(0),
        Expr::Num(8),
    ]?;
    let body = vec![in alloc;
        Stmt::SetLocal {
            local: 1,
            value: Expr::Local(0)
        },
        Stmt::SetVar {
            var: 1,
            value: Expr::Num(4)
        },
        Stmt::Send { out: 3, values },
    ]?;
    // 2 for the local, 2 for the variable, 8 + 1 for the message, and 1 for the end.
    let done = handled(alloc, &lone(alloc, 3, body)?, 7, &[-1, 0, 1])?;
    assert_eq!(rt; done.vars.as_slice(), [-1, 4, 1].as_slice());
    assert_eq!(rt; (done.sends.len(), done.ticks), (1, 14));
    assert_eq!(rt;
        message(&done, 0)?,
        (3, [1, 2, 7, 4, 5, 6, 7, 8].as_slice())
    );
    Ok(())
}
