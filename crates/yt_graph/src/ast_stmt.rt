//! Statements of the syntax tree.

ghost use Rattle.std.specs.Prelude.{◌≡◌};
ghost use Rattle.yt_graph.specs.AstPicture.{when_only, when_else, turns, ast_expr_tree, ast_stmt_tree, ast_block_tree};

use crate::ast::{Num, Word};
use crate::ast_expr::{AstExpr, AstExprs};

/// A statement as it is written.
#[derive(Debug, Drop)]
pub enum AstStmt {
    /// A new local and its value.
    Let {
        name: Word,
        value: AstExpr,
    },
    /// A new value of a local or a variable.
    Set {
        name: Word,
        value: AstExpr,
    },
    /// Values to send on an out.
    Send {
        out: Word,
        values: AstExprs,
    },
    /// Two blocks, of which the test takes one; the second may be absent.
    If {
        test: AstExpr,
        yes: Stmts,
        no: Option<Stmts>,
    },
    /// A block to repeat, its count and the greatest count.
    Repeat {
        count: AstExpr,
        max: Num,
        body: Stmts,
    },
}

/// Statements in order.
pub type Stmts = Vec<AstStmt>;

/// An `if` without `else`.
pub fn ast_if(test: AstExpr, yes: Stmts) -> AstStmt
    ensures { ast_stmt_tree result ≡ when_only (ast_expr_tree test) (ast_block_tree yes.items) }
{
    AstStmt::If {
        test,
        yes,
        no: None,
    }
}

/// An `if` with `else`.
pub fn ast_if_else(test: AstExpr, yes: Stmts, no: Stmts) -> AstStmt
    ensures { ast_stmt_tree result ≡ when_else (ast_expr_tree test) (ast_block_tree yes.items) (ast_block_tree no.items) }
{
    AstStmt::If {
        test,
        yes,
        no: Some(no),
    }
}

/// A `repeat`.
pub fn ast_repeat(count: AstExpr, max: Num, body: Stmts) -> AstStmt
    ensures { ast_stmt_tree result ≡ turns (ast_expr_tree count) max (ast_block_tree body.items) }
{
    AstStmt::Repeat { count, max, body }
}
