//! The most ticks that a handling may take, where 2^64 - 1 stands for any number that is greater.

ghost use Rattle.std.specs.Prelude.{◌≡◌, ◌+◌, ◌-◌, ◌^◌, min};
ghost use Rattle.yt_graph.specs.Picture.{expr_tree, exprs_tree, stmt_tree, block_tree};
ghost use Rattle.yt_graph.specs.Meaning.{expr_ticks, all_ticks};
ghost use Rattle.yt_graph.specs.Cost.{stmt_cost, block_cost};

use yt_graph::{Expr, ExprParts, Parts, Stmt, open, open_expr};

// The ticks of an expression.
#[cycle(value_ticks)]
fn value_ticks(e: &Expr) -> u64
    ensures { result ≡ min (expr_ticks (expr_tree e.now)) (2 ^ 64 - 1) }
{
    match open_expr(e) {
        ExprParts::Num(_) => 1,
        ExprParts::Local(_) => 1,
        ExprParts::Var(_) => 1,
        ExprParts::Neg(inner) => value_ticks(inner).saturating_add(1),
        ExprParts::Not(inner) => value_ticks(inner).saturating_add(1),
        ExprParts::Two(_, left, right) => both_and_one(value_ticks(left), value_ticks(right)),
        ExprParts::Call(_, _, ticks, args) => values_ticks(args).saturating_add(u64::from(ticks)),
    }
}

// The ticks of several expressions.
#[cycle(value_ticks)]
fn values_ticks(es: &[Expr]) -> u64
    ensures { result ≡ min (all_ticks (exprs_tree es.now)) (2 ^ 64 - 1) }
{
    let mut sum = 0u64;
    for e in es {
        sum = sum.saturating_add(value_ticks(e));
    }
    sum
}

// Two numbers of ticks and one tick more.
fn both_and_one(a: u64, b: u64) -> u64
    ensures { result ≡ min (a + b + 1) (2 ^ 64 - 1) }
{
    a.saturating_add(b).saturating_add(1)
}

// The most ticks of a statement.
#[cycle(stmt_ticks)]
fn stmt_ticks(s: &Stmt) -> u64
    ensures { result ≡ min (stmt_cost (stmt_tree s.now)) (2 ^ 64 - 1) }
{
    match open(s) {
        Parts::SetLocal(_, e) => value_ticks(e).saturating_add(1),
        Parts::SetVar(_, e) => value_ticks(e).saturating_add(1),
        Parts::Send(_, es) => values_ticks(es).saturating_add(1),
        Parts::Only(e, first) => both_and_one(value_ticks(e), block_ticks(first)),
        Parts::Else(e, first, second) => {
            let most = block_ticks(first)
                .saturating_add(1)
                .max(block_ticks(second));
            both_and_one(value_ticks(e), most)
        }
        Parts::Repeat(e, max, body) => {
            let turn = block_ticks(body).saturating_add(1);
            both_and_one(value_ticks(e), u64::from(max).saturating_mul(turn))
        }
    }
}

/// The most ticks of a block.
#[cycle(stmt_ticks)]
pub(crate) fn block_ticks(b: &[Stmt]) -> u64
    ensures { result ≡ min (block_cost (block_tree b.now)) (2 ^ 64 - 1) }
{
    let mut sum = 0u64;
    for s in b {
        sum = sum.saturating_add(stmt_ticks(s));
    }
    sum
}
