//! A node of a tree, opened: its parts, with slices in place of vectors.

ghost use Rattle.std.specs.Prelude.{◌≡◌};
ghost use Rattle.yt_graph.specs.Picture.{expr_tree, stmt_tree};
ghost use Rattle.yt_graph.specs.Parts.{expr_parts_tree, parts_tree};

use crate::expr::{Expr, Op2};
use crate::stmt::Stmt;

/// The parts of an expression.
#[derive(Clone, Copy)]
pub enum ExprParts<'a> {
    /// A number.
    Num(i64),
    /// The place of a local, from 0.
    Local(u32),
    /// The place of a variable, from 0.
    Var(u32),
    /// What changes its sign.
    Neg(&'a Expr),
    /// What is negated.
    Not(&'a Expr),
    /// The operator, and its left and right side.
    Two(Op2, &'a Expr, &'a Expr),
    /// The operator's number, from 1, its code, its ticks, and the arguments.
    Call(u32, u32, u32, &'a [Expr]),
}

/// The parts of an expression, whose picture is theirs.
pub fn open_expr(e: &Expr) -> ExprParts<'_>
    ensures { expr_parts_tree result ≡ expr_tree e.now }
{
    match e {
        Expr::Num(n) => ExprParts::Num(*n),
        Expr::Local(local) => ExprParts::Local(*local),
        Expr::Var(var) => ExprParts::Var(*var),
        Expr::Neg(inner) => ExprParts::Neg(inner),
        Expr::Not(inner) => ExprParts::Not(inner),
        Expr::Two { op, left, right } => ExprParts::Two(*op, left, right),
        Expr::Call {
            op,
            code,
            ticks,
            args,
        } => ExprParts::Call(*op, *code, *ticks, args),
    }
}

/// The parts of a statement.
#[derive(Clone, Copy)]
pub enum Parts<'a> {
    /// The place of a local, from 0, and its new value.
    SetLocal(u32, &'a Expr),
    /// The place of a variable, from 0, and its new value.
    SetVar(u32, &'a Expr),
    /// The number of an out, from 1, and the values.
    Send(u32, &'a [Expr]),
    /// The test and the block of an `if` without `else`.
    Only(&'a Expr, &'a [Stmt]),
    /// The test and both blocks of an `if` with `else`.
    Else(&'a Expr, &'a [Stmt], &'a [Stmt]),
    /// The count, the greatest number of turns, and the block.
    Repeat(&'a Expr, u32, &'a [Stmt]),
}

/// The parts of a statement, whose picture is theirs.
pub fn open(s: &Stmt) -> Parts<'_>
    ensures { parts_tree result ≡ stmt_tree s.now }
{
    match s {
        Stmt::SetLocal { local, value } => Parts::SetLocal(*local, value),
        Stmt::SetVar { var, value } => Parts::SetVar(*var, value),
        Stmt::Send { out, values } => Parts::Send(*out, values),
        Stmt::If { test, yes, no } => match no {
            None => Parts::Only(test, yes),
            Some(second) => Parts::Else(test, yes, second),
        },
        Stmt::Repeat { count, max, body } => Parts::Repeat(count, *max, body),
    }
}
