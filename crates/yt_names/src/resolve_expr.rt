//! Expressions of the resolved graph.
ghost use Rattle.std.specs.Prelude.{◌≡◌, IfOk};
ghost use Rattle.yt_graph.specs.AstPicture.{ast_expr_tree, ast_exprs_tree};
ghost use Rattle.yt_graph.specs.Picture.{expr_tree, exprs_tree};
ghost use Rattle.yt_names.specs.Resolved.{read_of, call_at, resolved_expr, resolved_exprs};

use crate::meant::Meant;
use crate::numbers::number_of;
use crate::scope::{Scope, Visible};
use std::alloc::{AllocError, Global};
use yt_graph::{AstExpr, AstExprParts, Expr, Exprs, OpHead, expr_call, open_ast_expr};

/// What an expression is by the names that are visible.
#[cycle(resolve_expr)]
pub(crate) fn resolve_expr(
    alloc: Global,
    scope: &Scope,
    visible: &Visible,
    e: &AstExpr,
) -> Result<Expr, AllocError>
    ensures { IfOk result (λ x. expr_tree x ≡ resolved_expr scope.now visible.now (ast_expr_tree e.now)) }
{
    match open_ast_expr(e) {
        AstExprParts::Num(n) => Ok(Expr::Num(n)),
        AstExprParts::Name(word) => Ok(read(scope.meant(visible, word.text.as_slice()))),
        AstExprParts::Neg(inner) => {
            let inner = resolve_expr(alloc, scope, visible, inner)?;
            Ok(Expr::Neg(Box::new(alloc, inner)?))
        }
        AstExprParts::Not(inner) => {
            let inner = resolve_expr(alloc, scope, visible, inner)?;
            Ok(Expr::Not(Box::new(alloc, inner)?))
        }
        AstExprParts::Two(op, left, right) => {
            let left = resolve_expr(alloc, scope, visible, left)?;
            let right = resolve_expr(alloc, scope, visible, right)?;
            Ok(Expr::Two {
                op,
                left: Box::new(alloc, left)?,
                right: Box::new(alloc, right)?,
            })
        }
        AstExprParts::Paren(inner) => resolve_expr(alloc, scope, visible, inner),
        AstExprParts::Call(word, args) => {
            let args = resolve_exprs(alloc, scope, visible, args)?;
            Ok(call(scope.ops(), scope.op_place(word.text.as_slice()), args))
        }
    }
}

/// What expressions are by the names that are visible.
#[cycle(resolve_expr)]
pub(crate) fn resolve_exprs(
    alloc: Global,
    scope: &Scope,
    visible: &Visible,
    es: &[AstExpr],
) -> Result<Exprs, AllocError>
    ensures { IfOk result (λ xs. exprs_tree xs.items ≡ resolved_exprs scope.now visible.now (ast_exprs_tree es.now)) }
{
    let mut all = Vec::new(alloc);
    for e in es {
        all.push(resolve_expr(alloc, scope, visible, e)?)?;
    }
    Ok(all)
}

/// What a name reads.
fn read(meant: Meant) -> Expr
    ensures { expr_tree result ≡ read_of meant }
{
    match meant {
        Meant::Local(place) => Expr::Local(place),
        Meant::Var(place) => Expr::Var(place),
        Meant::Nothing => Expr::Num(0),
    }
}

/// The call of the operator at a place.
fn call(ops: &[OpHead], place: Option<usize>, args: Exprs) -> Expr
    ensures { expr_tree result ≡ call_at ops.now place (exprs_tree args.items) }
{
    match place {
        None => Expr::Num(0),
        Some(n) => match ops.get(n) {
            None => Expr::Num(0),
            Some(head) => expr_call(number_of(n), head.code, head.ticks, args),
        },
    }
}
