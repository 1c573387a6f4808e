//! Whether a handler uses a variable.
ghost use Rattle.std.specs.Prelude.{◌≡◌};
ghost use Rattle.yt_graph.specs.Picture.{expr_tree, exprs_tree, stmt_tree, block_tree};
ghost use Rattle.yt_graph.specs.WellFormed.{expr_uses_var, exprs_use_var, stmt_uses_var, block_uses_var};

use yt_graph::{Expr, ExprParts, Parts, Stmt, open, open_expr};

/// Whether a block reads or writes a variable.
#[cycle(uses_var)]
pub(crate) fn block_uses_var(b: &[Stmt]) -> bool
    ensures { result ≡ block_uses_var (block_tree b.now) }
{
    for s in b {
        if stmt_uses_var(s) {
            return true;
        }
    }
    false
}

/// Whether a statement reads or writes a variable.
#[cycle(uses_var)]
fn stmt_uses_var(s: &Stmt) -> bool
    ensures { result ≡ stmt_uses_var (stmt_tree s.now) }
{
    match open(s) {
        Parts::SetLocal(_, value) => expr_uses_var(value),
        Parts::SetVar(_, _) => true,
        Parts::Send(_, values) => exprs_use_var(values),
        Parts::Only(test, yes) => expr_uses_var(test) || block_uses_var(yes),
        Parts::Else(test, yes, no) => {
            expr_uses_var(test) || (block_uses_var(yes) || block_uses_var(no))
        }
        Parts::Repeat(count, _, body) => expr_uses_var(count) || block_uses_var(body),
    }
}

/// Whether an expression reads a variable.
#[cycle(expr_uses_var)]
fn expr_uses_var(e: &Expr) -> bool
    ensures { result ≡ expr_uses_var (expr_tree e.now) }
{
    match open_expr(e) {
        ExprParts::Num(_) => false,
        ExprParts::Local(_) => false,
        ExprParts::Var(_) => true,
        ExprParts::Neg(inner) => expr_uses_var(inner),
        ExprParts::Not(inner) => expr_uses_var(inner),
        ExprParts::Two(_, left, right) => expr_uses_var(left) || expr_uses_var(right),
        ExprParts::Call(_, _, _, args) => exprs_use_var(args),
    }
}

/// Whether one of expressions reads a variable.
#[cycle(expr_uses_var)]
fn exprs_use_var(es: &[Expr]) -> bool
    ensures { result ≡ exprs_use_var (exprs_tree es.now) }
{
    for e in es {
        if expr_uses_var(e) {
            return true;
        }
    }
    false
}
