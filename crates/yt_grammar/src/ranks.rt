//! How loosely operators bind.

ghost use Rattle.std.specs.Prelude.{◌≡◌, ◌≤◌};
ghost use Rattle.yt_grammar.specs.Grammar.{op_rank, right_rank, loosest};

use yt_graph::Op2;

/// The rank of comparisons, which don't follow each other.
pub const COMPARISON: u32 = 4;

/// The loosest rank.
pub const LOOSEST: u32 = 7;

/// How loosely an operator binds.
pub fn op_rank(op: Op2) -> u32
    ensures { result ≡ op_rank op }
{
    match op {
        Op2::Or => 7,
        Op2::And => 6,
        Op2::Lt | Op2::Le | Op2::Gt | Op2::Ge | Op2::Eq | Op2::Ne => COMPARISON,
        Op2::Add | Op2::Sub => 3,
        Op2::Mul | Op2::Div | Op2::Rem => 2,
    }
}

/// The loosest right side of an operator.
pub fn right_rank(op: Op2) -> u32
    ensures value { result ≡ right_rank op }
    ensures bound { result ≤ loosest }
{
    match op {
        Op2::Or => 6,
        Op2::And => 5,
        Op2::Lt | Op2::Le | Op2::Gt | Op2::Ge | Op2::Eq | Op2::Ne => 3,
        Op2::Add | Op2::Sub => 2,
        Op2::Mul | Op2::Div | Op2::Rem => 1,
    }
}
