//! Expressions.

ghost use Rattle.std.specs.Prelude.{◌≡◌};
ghost use Rattle.yt_graph.specs.Picture.{call, expr_tree, exprs_tree};

/// An operator between two numbers.
#[derive(Clone, Copy, Debug, PartialEq, Eq)]
pub enum Op2 {
    /// 1 where one of both isn't 0, else 0.
    Or,
    /// 1 where both aren't 0, else 0.
    And,
    /// 1 where the left is less, else 0.
    Lt,
    /// 1 where the left is less or equal, else 0.
    Le,
    /// 1 where the left is greater, else 0.
    Gt,
    /// 1 where the left is greater or equal, else 0.
    Ge,
    /// 1 where both are equal, else 0.
    Eq,
    /// 1 where both differ, else 0.
    Ne,
    /// The sum, which wraps.
    Add,
    /// The difference, which wraps.
    Sub,
    /// The product, which wraps.
    Mul,
    /// The quotient, rounded towards zero, which wraps; 0 where the right is 0.
    Div,
    /// The remainder, with the sign of the left; 0 where the right is 0.
    Rem,
}

/// An expression of a handler.
#[derive(Debug, Drop)]
pub enum Expr {
    /// A number that is written.
    Num(i64),
    /// The local at this place, from 0.
    Local(u32),
    /// The variable at this place, from 0.
    Var(u32),
    /// The number with the other sign, which wraps.
    Neg(Box<Expr>),
    /// 1 where the number is 0, else 0.
    Not(Box<Expr>),
    /// An operator between two expressions, of which the left is evaluated first.
    Two {
        op: Op2,
        left: Box<Expr>,
        right: Box<Expr>,
    },
    /// A call of an operator: its number, from 1, and its head's code and ticks.
    Call {
        op: u32,
        code: u32,
        ticks: u32,
        args: Exprs,
    },
}

/// Expressions in order.
pub type Exprs = Vec<Expr>;

/// A call of an operator: its number, from 1, its head's code and ticks, and the arguments.
pub fn expr_call(op: u32, code: u32, ticks: u32, args: Exprs) -> Expr
    ensures { expr_tree result ≡ call op code ticks (exprs_tree args.items) }
{
    Expr::Call {
        op,
        code,
        ticks,
        args,
    }
}
