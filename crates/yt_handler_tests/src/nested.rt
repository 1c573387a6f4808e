//! Handlers that are loops in loops.

ghost use Rattle.std.specs.Prelude.{◌≡◌, false, pos, IfOk};
ghost use Rattle.yt_graph.specs.Picture.{num, local, two, no_exprs, more_exprs, set_local, send, if_else, repeat, empty, more, expr_tree, stmt_tree, block_tree};
ghost use Rattle.yt_cost.specs.CodeFit.{stmt_calls, block_calls};
ghost use Rattle.yt_handler_tests.specs.Graphs.{IsPlain};

use crate::trees::{alone, assigned, both, sends};
use std::alloc::{AllocError, Global};
use std::test::Fail;
use yt_graph::{Block, Expr, Op2, Stmt, stmt_if_else, stmt_repeat};

// The innermost statement of a handler.
#[derive(Clone, Copy, Debug)]
pub(crate) enum Inner {
    // let x = 1, of 2 ticks
    One,
    // let x = -v, of 3 ticks
    Negated,
    // let x = v + 1, of 4 ticks
    Sum,
    // send e (v), of 2 ticks
    Send,
    // send e (v OP NUMBER), of 4 ticks
    Value(Op2, i64),
    // if v < 2 { send e (v) } else { let x = 1 }, of 7 ticks or 6
    Branch,
    // send b (v, v, v, v, v, v, v, 1), of 9 ticks
    Eight,
}

// A handler: a statement in loops with these greatest numbers of turns, the innermost first.
#[derive(Clone, Copy, Debug)]
pub(crate) struct Nested {
    pub inner: Inner,
    pub turns: &'static [u32],
}

pub(crate) const ONE: Nested = Nested {
    inner: Inner::One,
    turns: &[],
};

// The innermost statement.
fn statement(alloc: Global, inner: Inner) -> Result<Stmt, AllocError>
    ensures plain { IfOk result (λ s. IsPlain 0 2 (more (stmt_tree s) empty)) }
    ensures no_calls { IfOk result (λ s. stmt_calls (stmt_tree s) ≡ false) }
{
    match inner {
        Inner::One => Ok(assigned(Expr::Num(1))),
        Inner::Negated => Ok(assigned(Expr::Neg(Box::new(alloc, Expr::Local(0))?))),
        Inner::Sum => Ok(assigned(value(alloc, Op2::Add, 1)?)),
        Inner::Send => sends(alloc, 2, Expr::Local(0)),
        Inner::Value(op, n) => sends(alloc, 2, value(alloc, op, n)?),
        Inner::Branch => branch(alloc),
        Inner::Eight => eight(alloc),
    }
}

// v OP NUMBER
fn value(alloc: Global, op: Op2, n: i64) -> Result<Expr, AllocError>
    ensures { IfOk result (λ e. expr_tree e ≡ two op (local 0) (num n)) }
{
    both(alloc, op, Expr::Local(0), Expr::Num(n))
}

// if v < 2 { send e (v) } else { let x = 1 }
fn branch(alloc: Global) -> Result<Stmt, AllocError>
    ensures { IfOk result (λ s. stmt_tree s ≡ if_else (two Op2.Lt (local 0) (num (pos 2))) (more (send 2 (more_exprs (local 0) no_exprs)) empty) (more (set_local 1 (num (pos 1))) empty)) }
{
    let test = value(alloc, Op2::Lt, 2)?;
    let yes = alone(alloc, sends(alloc, 2, Expr::Local(0))?)?;
    let no = alone(alloc, assigned(Expr::Num(1)))?;
    Ok(stmt_if_else(test, yes, no))
}

// send b (v, v, v, v, v, v, v, 1)
fn eight(alloc: Global) -> Result<Stmt, AllocError>
    ensures plain { IfOk result (λ s. IsPlain 0 1 (more (stmt_tree s) empty)) }
    ensures no_calls { IfOk result (λ s. stmt_calls (stmt_tree s) ≡ false) }
{
    let values = vec![in alloc;
        Expr::Local(0),
        Expr::Local(0),
        Expr::Local(0),
        Expr::Local(0),
        Expr::Local(0),
        Expr::Local(0),
        Expr::Local(0),
        Expr::Num(1),
    ]?;
    Ok(Stmt::Send { out: 3, values })
}

// A block in a loop of v turns, and of so many at most.
fn repeated(alloc: Global, max: u32, body: Block) -> Result<Block, AllocError>
    ensures { IfOk result (λ b. block_tree b.items ≡ more (repeat (local 0) max (block_tree body.items)) empty) }
{
    alone(alloc, stmt_repeat(Expr::Local(0), max, body))
}

// The statement in its loops.
pub(crate) fn handler(alloc: Global, nested: Nested) -> Result<Block, Fail>
    ensures plain { IfOk result (λ b. IsPlain 0 8 (block_tree b.items)) }
    ensures no_calls { IfOk result (λ b. block_calls (block_tree b.items) ≡ false) }
{
    if nested.turns.len() > 6 {
        return Err(Fail::from("too deep"));
    }
    let mut body = alone(alloc, statement(alloc, nested.inner)?)?;
    for max in nested.turns {
        if *max < 1 || *max > 10_000 {
            return Err(Fail::from("out of range"));
        }
        body = repeated(alloc, *max, body)?;
    }
    Ok(body)
}
