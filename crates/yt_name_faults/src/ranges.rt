//! Numbers of the text and their ranges.
ghost use Rattle.std.specs.Prelude.{◌≡◌, pos};
ghost use Rattle.std.specs.Ordering.{int_eq};
ghost use Rattle.yt_name_faults.specs.Handlers.{is_outside};

use yt_graph::Num;

/// Whether a number is below the first or above the second.
pub(crate) fn is_outside(low: u32, high: u32, n: Num) -> bool
    ensures { result ≡ is_outside low high n.value }
{
    n.value < i64::from(low) || n.value > i64::from(high)
}

/// Whether a number is this count.
pub(crate) fn is_count(n: Num, count: usize) -> bool
    ensures { result ≡ int_eq n.value (pos count) }
{
    match usize::try_from(n.value) {
        Ok(value) => value == count,
        Err(_) => false,
    }
}
