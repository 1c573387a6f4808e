//! Values of operators, and turns of loops.

ghost use Rattle.std.specs.Prelude.{◌≡◌};
ghost use Rattle.yt_graph.specs.Meaning.{neg_value, not_value, two_value, op_value, turns_of};

use crate::expr::Op2;

/// The number with the other sign, which wraps.
pub fn negated(x: i64) -> i64
    ensures { result ≡ neg_value x }
{
    x.wrapping_neg()
}

/// 1 for 0, else 0.
pub fn inverted(x: i64) -> i64
    ensures { result ≡ not_value x }
{
    i64::from(x == 0)
}

/// The value of an operator between two numbers.
///
/// Sums, differences, products and quotients wrap. A quotient is rounded towards zero, a remainder has the sign of the left
/// side, and both are 0 where the right side is 0.
pub fn applied(op: Op2, x: i64, y: i64) -> i64
    ensures { result ≡ two_value op x y }
{
    match op {
        Op2::Or => i64::from(x != 0 || y != 0),
        Op2::And => i64::from(x != 0 && y != 0),
        Op2::Lt => i64::from(x < y),
        Op2::Le => i64::from(x <= y),
        Op2::Gt => i64::from(x > y),
        Op2::Ge => i64::from(x >= y),
        Op2::Eq => i64::from(x == y),
        Op2::Ne => i64::from(x != y),
        Op2::Add => x.wrapping_add(y),
        Op2::Sub => x.wrapping_sub(y),
        Op2::Mul => x.wrapping_mul(y),
        Op2::Div => quotient(x, y),
        Op2::Rem => remainder(x, y),
    }
}

/// The quotient, rounded towards zero, which wraps; 0 where the right side is 0.
fn quotient(x: i64, y: i64) -> i64
    ensures { result ≡ two_value Op2.Div x y }
{
    if y == 0 { 0 } else { x.wrapping_div(y) }
}

/// The remainder, with the sign of the left side; 0 where the right side is 0.
fn remainder(x: i64, y: i64) -> i64
    ensures { result ≡ two_value Op2.Rem x y }
{
    if y == 0 { 0 } else { x.wrapping_rem(y) }
}

/// The value of the operator with this code, from 1 to 5: the lesser of two numbers, the greater, their gap, the size of the
/// first, its sign.
pub fn operator_value(code: u32, x: i64, y: i64) -> i64
    ensures { result ≡ op_value code x y }
{
    match code {
        1 => x.min(y),
        2 => x.max(y),
        3 => x.max(y).wrapping_sub(x.min(y)),
        4 => { if x < 0 { x.wrapping_neg() } else { x } }
        5 => x.signum(),
        _ => 0,
    }
}

/// How many turns a loop makes: its count, at least 0 and at most `max`.
pub fn turns_made(count: i64, max: u32) -> u32
    ensures { result ≡ turns_of count max }
{
    if count < 0 {
        0
    } else if count < i64::from(max) {
        count as u32
    } else {
        max
    }
}
