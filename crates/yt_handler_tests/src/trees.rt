//! Parts of handlers' trees.

ghost use Rattle.std.specs.Prelude.{◌≡◌, pos, IfOk};
ghost use Rattle.yt_graph.specs.Picture.{num, var, two, no_exprs, more_exprs, set_local, set_var, send, empty, more, expr_tree, stmt_tree, block_tree};

use std::alloc::{AllocError, Global};
use yt_graph::{Block, Expr, Op2, Stmt};

/// An operator between two expressions.
pub(crate) fn both(alloc: Global, op: Op2, left: Expr, right: Expr) -> Result<Expr, AllocError>
    ensures { IfOk result (λ e. expr_tree e ≡ two op (expr_tree left) (expr_tree right)) }
{
    Ok(Expr::Two {
        op,
        left: Box::new(alloc, left)?,
        right: Box::new(alloc, right)?,
    })
}

/// A message of one number.
pub(crate) fn sends(alloc: Global, out: u32, value: Expr) -> Result<Stmt, AllocError>
    ensures { IfOk result (λ s. stmt_tree s ≡ send out (more_exprs (expr_tree value) no_exprs)) }
{
    let values = vec![in alloc; value]?;
    Ok(Stmt::Send { out, values })
}

/// A new value of the local beside the parameter.
pub(crate) fn assigned(value: Expr) -> Stmt
    ensures { stmt_tree result ≡ set_local 1 (expr_tree value) }
{
    Stmt::SetLocal { local: 1, value }
}

/// One more in the first variable: four ticks.
pub(crate) fn counts(alloc: Global) -> Result<Block, AllocError>
    ensures { IfOk result (λ b. block_tree b.items ≡ more (set_var 0 (two Op2.Add (var 0) (num (pos 1)))) empty) }
{
    let value = both(alloc, Op2::Add, Expr::Var(0), Expr::Num(1))?;
    alone(alloc, Stmt::SetVar { var: 0, value })
}

/// A block of one statement.
pub(crate) fn alone(alloc: Global, s: Stmt) -> Result<Block, AllocError>
    ensures { IfOk result (λ b. block_tree b.items ≡ more (stmt_tree s) empty) }
{
    Ok(vec![in alloc; s]?)
}
