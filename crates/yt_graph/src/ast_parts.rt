//! A node of the syntax tree, opened: its parts, with slices in place of vectors.

ghost use Rattle.std.specs.Prelude.{◌≡◌};
ghost use Rattle.yt_graph.specs.AstPicture.{ast_expr_tree, ast_stmt_tree};
ghost use Rattle.yt_graph.specs.AstParts.{ast_expr_parts_tree, ast_parts_tree};

use crate::ast::{Num, Word};
use crate::ast_expr::AstExpr;
use crate::ast_stmt::AstStmt;
use crate::expr::Op2;

/// The parts of an expression.
#[derive(Clone, Copy)]
pub enum AstExprParts<'a> {
    /// A number.
    Num(i64),
    /// A name.
    Name(&'a Word),
    /// What changes its sign.
    Neg(&'a AstExpr),
    /// What is negated.
    Not(&'a AstExpr),
    /// The operator, and its left and right side.
    Two(Op2, &'a AstExpr, &'a AstExpr),
    /// What stands in parentheses.
    Paren(&'a AstExpr),
    /// The operator's name and the arguments.
    Call(&'a Word, &'a [AstExpr]),
}

/// The parts of an expression, whose picture is theirs.
pub fn open_ast_expr(e: &AstExpr) -> AstExprParts<'_>
    ensures { ast_expr_parts_tree result ≡ ast_expr_tree e.now }
{
    match e {
        AstExpr::Num(n) => AstExprParts::Num(*n),
        AstExpr::Name(word) => AstExprParts::Name(word),
        AstExpr::Neg(inner) => AstExprParts::Neg(inner),
        AstExpr::Not(inner) => AstExprParts::Not(inner),
        AstExpr::Two { op, left, right } => AstExprParts::Two(*op, left, right),
        AstExpr::Paren(inner) => AstExprParts::Paren(inner),
        AstExpr::Call { name, args } => AstExprParts::Call(name, args),
    }
}

/// The parts of a statement.
#[derive(Clone, Copy)]
pub enum AstParts<'a> {
    /// A new local and its value.
    Let(&'a Word, &'a AstExpr),
    /// A local or a variable and its new value.
    Set(&'a Word, &'a AstExpr),
    /// An out and the values.
    Send(&'a Word, &'a [AstExpr]),
    /// The test and the block of an `if` without `else`.
    Only(&'a AstExpr, &'a [AstStmt]),
    /// The test and both blocks of an `if` with `else`.
    Else(&'a AstExpr, &'a [AstStmt], &'a [AstStmt]),
    /// The count, the greatest count and the block.
    Repeat(&'a AstExpr, Num, &'a [AstStmt]),
}

/// The parts of a statement, whose picture is theirs.
pub fn open_ast_stmt(s: &AstStmt) -> AstParts<'_>
    ensures { ast_parts_tree result ≡ ast_stmt_tree s.now }
{
    match s {
        AstStmt::Let { name, value } => AstParts::Let(name, value),
        AstStmt::Set { name, value } => AstParts::Set(name, value),
        AstStmt::Send { out, values } => AstParts::Send(out, values),
        AstStmt::If { test, yes, no } => match no {
            None => AstParts::Only(test, yes),
            Some(second) => AstParts::Else(test, yes, second),
        },
        AstStmt::Repeat { count, max, body } => AstParts::Repeat(count, *max, body),
    }
}
