//! The values of expressions, and the ticks that they take.

ghost use Rattle.std.specs.Prelude.{◌≡◌, ◌^◌, ◌<◌, pos, length, slice_index_or, IfOk};
ghost use Rattle.yt_graph.specs.Picture.{expr_tree, exprs_tree};
ghost use Rattle.yt_graph.specs.Meaning.{expr_value, all_values, expr_ticks, all_ticks};
ghost use Rattle.yt_mean.specs.Inside.Within.{IsExprWithin, AreExprsWithin};

use std::alloc::{AllocError, Global};
use yt_graph::{Expr, ExprParts, applied, inverted, negated, open_expr, operator_value};
use yt_list::Vals;

/// The value of an expression.
#[cycle(evaluate)]
pub fn value(e: &Expr, locals: &[i64], vars: &[i64]) -> i64
    requires { IsExprWithin (length locals.now) (length vars.now) (expr_tree e.now) }
    ensures { result ≡ expr_value (expr_tree e.now) locals.now vars.now }
{
    match open_expr(e) {
        ExprParts::Num(n) => n,
        ExprParts::Local(i) => locals[i as usize],
        ExprParts::Var(i) => vars[i as usize],
        ExprParts::Neg(e) => negated(value(e, locals, vars)),
        ExprParts::Not(e) => inverted(value(e, locals, vars)),
        ExprParts::Two(op, l, r) => applied(op, value(l, locals, vars), value(r, locals, vars)),
        ExprParts::Call(_, code, _, args) => operator_value(
            code,
            argument(args, 0, locals, vars),
            argument(args, 1, locals, vars),
        ),
    }
}

// The value of an argument of an operator's call, or 0 where there is none.
#[cycle(evaluate)]
fn argument(args: &[Expr], n: usize, locals: &[i64], vars: &[i64]) -> i64
    requires { AreExprsWithin (length locals.now) (length vars.now) (exprs_tree args.now) }
    ensures { result ≡ slice_index_or (all_values (exprs_tree args.now) locals.now vars.now) n (pos 0) }
{
    match args.get(n) {
        Some(e) => value(e, locals, vars),
        None => 0,
    }
}

/// The ticks that an expression takes.
#[cycle(count)]
pub fn ticks(e: &Expr) -> u64
    requires { expr_ticks (expr_tree e.now) < 2 ^ 64 }
    ensures { result ≡ expr_ticks (expr_tree e.now) }
{
    match open_expr(e) {
        ExprParts::Num(_) => 1,
        ExprParts::Local(_) => 1,
        ExprParts::Var(_) => 1,
        ExprParts::Neg(e) => ticks(e) + 1,
        ExprParts::Not(e) => ticks(e) + 1,
        ExprParts::Two(_, l, r) => ticks(l) + ticks(r) + 1,
        ExprParts::Call(_, _, n, args) => values_ticks(args) + u64::from(n),
    }
}

/// The values of several expressions.
pub fn values(alloc: Global, es: &[Expr], locals: &[i64], vars: &[i64]) -> Result<Vals, AllocError>
    requires { AreExprsWithin (length locals.now) (length vars.now) (exprs_tree es.now) }
    ensures { IfOk result (λ all. all ≡ all_values (exprs_tree es.now) locals.now vars.now) }
{
    let mut all = Vals::new(alloc);
    for e in es {
        all.push(value(e, locals, vars))?;
    }
    Ok(all)
}

/// The ticks of several expressions.
#[cycle(count)]
pub fn values_ticks(es: &[Expr]) -> u64
    requires { all_ticks (exprs_tree es.now) < 2 ^ 64 }
    ensures { result ≡ all_ticks (exprs_tree es.now) }
{
    let mut sum = 0;
    for e in es {
        sum += ticks(e);
    }
    sum
}
