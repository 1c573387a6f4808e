//! Statements.

ghost use Rattle.std.specs.Prelude.{◌≡◌};
ghost use Rattle.yt_graph.specs.Picture.{if_only, if_else, repeat, expr_tree, stmt_tree, block_tree};

use crate::expr::{Expr, Exprs};

/// A statement of a handler.
#[derive(Debug, Drop)]
pub enum Stmt {
    /// Stores a value in the local at this place, from 0.
    SetLocal {
        local: u32,
        value: Expr,
    },
    /// Stores a value in the variable at this place, from 0.
    SetVar {
        var: u32,
        value: Expr,
    },
    /// Sends values on the out of this number, from 1.
    Send {
        out: u32,
        values: Exprs,
    },
    /// Takes the first block where the test isn't 0, else the second where there is one.
    If {
        test: Expr,
        yes: Block,
        no: Option<Block>,
    },
    /// Takes a block as often as the count says, at least 0 and at most `max` times.
    Repeat {
        count: Expr,
        max: u32,
        body: Block,
    },
}

/// Statements in order.
pub type Block = Vec<Stmt>;

/// An `if` without `else`.
pub fn stmt_if(test: Expr, yes: Block) -> Stmt
    ensures { stmt_tree result ≡ if_only (expr_tree test) (block_tree yes.items) }
{
    Stmt::If {
        test,
        yes,
        no: None,
    }
}

/// An `if` with `else`.
pub fn stmt_if_else(test: Expr, yes: Block, no: Block) -> Stmt
    ensures { stmt_tree result ≡ if_else (expr_tree test) (block_tree yes.items) (block_tree no.items) }
{
    Stmt::If {
        test,
        yes,
        no: Some(no),
    }
}

/// A `repeat`.
pub fn stmt_repeat(count: Expr, max: u32, body: Block) -> Stmt
    ensures { stmt_tree result ≡ repeat (expr_tree count) max (block_tree body.items) }
{
    Stmt::Repeat { count, max, body }
}
