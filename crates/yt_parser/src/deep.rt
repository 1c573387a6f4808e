//! Expressions with their depths.

ghost use Rattle.std.specs.Prelude.{◌≡◌, ◌+◌, ◌<◌, ◌^◌, max, IfOk};
ghost use Rattle.yt_graph.specs.AstPicture.{name, number, minus, negation, two_sides, paren, call_of, ast_expr_tree, ast_exprs_tree};
ghost use Rattle.yt_graph.specs.AstWellFormed.{ast_expr_depth, ast_exprs_depth};

use std::alloc::{AllocError, Global};
use yt_graph::{AstExpr, AstExprs, Op2, Word, ast_call};

/// An expression, and its depth.
#[derive(Drop)]
pub(crate) struct DeepExpr {
    /// The expression.
    pub(crate) expr: AstExpr,
    /// Its depth, at least 1.
    pub(crate) depth: u32,
    ghost exact: { depth ≡ ast_expr_depth (ast_expr_tree expr) },
}

/// Expressions in order, and the depth of the deepest.
#[derive(Drop)]
pub(crate) struct DeepExprs {
    /// The expressions.
    pub(crate) exprs: AstExprs,
    /// The greatest of their depths.
    pub(crate) depth: u32,
    ghost exact: { depth ≡ ast_exprs_depth (ast_exprs_tree exprs.items) },
}

/// A number.
pub(crate) fn deep_number(n: i64) -> DeepExpr
    ensures tree { ast_expr_tree result.expr ≡ number n }
    ensures depth { result.depth ≡ 1 }
{
    DeepExpr {
        expr: AstExpr::Num(n),
        depth: 1,
    }
}

/// A name.
pub(crate) fn deep_name(word: Word) -> DeepExpr
    ensures tree { ast_expr_tree result.expr ≡ name word }
    ensures depth { result.depth ≡ 1 }
{
    DeepExpr {
        expr: AstExpr::Name(word),
        depth: 1,
    }
}

/// `-` before an expression.
pub(crate) fn deep_minus(alloc: Global, inner: DeepExpr) -> Result<DeepExpr, AllocError>
    requires { inner.depth + 1 < 2 ^ 32 }
    ensures tree { IfOk result (λ d. ast_expr_tree d.expr ≡ minus (ast_expr_tree inner.expr)) }
    ensures depth { IfOk result (λ d. d.depth ≡ inner.depth + 1) }
{
    let DeepExpr { expr, depth } = inner;
    let expr = Box::new(alloc, expr)?;
    Ok(DeepExpr {
        expr: AstExpr::Neg(expr),
        depth: depth + 1,
    })
}

/// `not` before an expression.
pub(crate) fn deep_negation(alloc: Global, inner: DeepExpr) -> Result<DeepExpr, AllocError>
    requires { inner.depth + 1 < 2 ^ 32 }
    ensures tree { IfOk result (λ d. ast_expr_tree d.expr ≡ negation (ast_expr_tree inner.expr)) }
    ensures depth { IfOk result (λ d. d.depth ≡ inner.depth + 1) }
{
    let DeepExpr { expr, depth } = inner;
    let expr = Box::new(alloc, expr)?;
    Ok(DeepExpr {
        expr: AstExpr::Not(expr),
        depth: depth + 1,
    })
}

/// An expression in parentheses.
pub(crate) fn deep_paren(alloc: Global, inner: DeepExpr) -> Result<DeepExpr, AllocError>
    requires { inner.depth + 1 < 2 ^ 32 }
    ensures tree { IfOk result (λ d. ast_expr_tree d.expr ≡ paren (ast_expr_tree inner.expr)) }
    ensures depth { IfOk result (λ d. d.depth ≡ inner.depth + 1) }
{
    let DeepExpr { expr, depth } = inner;
    let expr = Box::new(alloc, expr)?;
    Ok(DeepExpr {
        expr: AstExpr::Paren(expr),
        depth: depth + 1,
    })
}

/// An operator between two expressions.
pub(crate) fn deep_two(
    alloc: Global,
    op: Op2,
    left: DeepExpr,
    right: DeepExpr,
) -> Result<DeepExpr, AllocError>
    requires left { left.depth + 1 < 2 ^ 32 }
    requires right { right.depth + 1 < 2 ^ 32 }
    ensures tree { IfOk result (λ d. ast_expr_tree d.expr ≡ two_sides op (ast_expr_tree left.expr) (ast_expr_tree right.expr)) }
    ensures depth { IfOk result (λ d. d.depth ≡ 1 + max left.depth right.depth) }
{
    let depth = 1 + left.depth.max(right.depth);
    let left = Box::new(alloc, left.expr)?;
    let right = Box::new(alloc, right.expr)?;
    Ok(DeepExpr {
        expr: AstExpr::Two { op, left, right },
        depth,
    })
}

/// A call of an operator.
pub(crate) fn deep_call(name: Word, args: DeepExprs) -> DeepExpr
    requires { args.depth + 1 < 2 ^ 32 }
    ensures tree { ast_expr_tree result.expr ≡ call_of name (ast_exprs_tree args.exprs.items) }
    ensures depth { result.depth ≡ args.depth + 1 }
{
    let DeepExprs { exprs, depth } = args;
    DeepExpr {
        expr: ast_call(name, exprs),
        depth: depth + 1,
    }
}
