//! Operators that a handler may call.

use yt_list::Name;

/// What a handler may know of an operator.
#[derive(Debug, Drop)]
pub struct OpHead {
    /// Its name.
    pub name: Name,
    /// How many numbers it takes, 1 or 2.
    pub args: u32,
    /// How many ticks a call takes.
    pub ticks: u32,
    /// Which value it gives: 1 the lesser, 2 the greater, 3 their gap, 4 the size, 5 the sign.
    pub code: u32,
}
