//! Expressions of the syntax tree.

ghost use Rattle.std.specs.Prelude.{◌≡◌};
ghost use Rattle.yt_graph.specs.AstPicture.{minus, negation, two_sides, paren, call_of, ast_expr_tree, ast_exprs_tree};

use crate::ast::Word;
use crate::expr::Op2;

/// An expression as it is written.
#[derive(Debug, Drop)]
pub enum AstExpr {
    /// A number.
    Num(i64),
    /// A parameter, a local or a variable.
    Name(Word),
    /// `-` and what it stands before.
    Neg(Box<AstExpr>),
    /// `not` and what it stands before.
    Not(Box<AstExpr>),
    /// An operator between two expressions.
    Two {
        op: Op2,
        left: Box<AstExpr>,
        right: Box<AstExpr>,
    },
    /// An expression in parentheses.
    Paren(Box<AstExpr>),
    /// A call of an operator, with one argument or more.
    Call {
        name: Word,
        args: AstExprs,
    },
}

/// Expressions in order.
pub type AstExprs = Vec<AstExpr>;

/// A call of an operator.
pub fn ast_call(name: Word, args: AstExprs) -> AstExpr
    ensures { ast_expr_tree result ≡ call_of name (ast_exprs_tree args.items) }
{
    AstExpr::Call { name, args }
}
