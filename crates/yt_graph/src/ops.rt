//! What calls operators.

ghost use Rattle.std.specs.Prelude.{◌≡◌, ◌≤◌, List, length};
ghost use Rattle.yt_graph.specs.Meaning.{op_value};
ghost use Rattle.yt_graph.specs.Operators.{op_code};
ghost use Rattle.yt_graph.specs.declared.operator.OpHead.{OpHead};

use crate::operator::OpHead;

/// Operators, which are called by their numbers, from 1.
pub trait Ops {
    // Their heads, in order.
    ghost known: { Self → List OpHead };

    /// The heads of the operators, in order: that of number 1 comes first.
    fn heads(&self) -> &[OpHead]
        ensures { result.now ≡ known self.now };

    /// The value of the operator of this number, from 1, on these arguments; where it takes one, `y` is 0. The caller shows
    /// that there is such an operator.
    fn call(&self, op: u32, x: i64, y: i64) -> i64
        requires first { 1 ≤ op }
        requires last { op ≤ length (known self.now) }
        ensures { result ≡ op_value (op_code (known self.now) op) x y };
}

/// No operators.
#[derive(Clone, Copy, Debug)]
pub struct NoOps;

impl Ops for NoOps {
    ghost use Rattle.std.specs.Prelude.{◌≡◌, [], pos};

    ghost known = { λ _. [] };

    fn heads(&self) -> &[OpHead] {
        &[]
    }

    // No number is that of an operator, so this asks for none, and says what the trait says of a number without a head.
    fn call(&self, _op: u32, _x: i64, _y: i64) -> i64
        ensures { result ≡ pos 0 }
    {
        0
    }
}
