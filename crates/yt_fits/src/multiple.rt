//! The least common multiple of two numbers.
ghost use Rattle.std.specs.Prelude.{◌≡◌, ◌<◌, ◌≤◌};
ghost use Rattle.std.specs.Int.{IsGcd};
ghost use Rattle.yt_set.specs.Limits.{most_ticks};
ghost use Rattle.yt_set.specs.Tasks.{lcm};
ghost use Rattle.yt_fits.specs.Loads.{most_multiple};

/// The least common multiple of a number and a period.
pub(crate) fn lcm(number: u128, period: u64) -> u128
    requires number { 1 ≤ number }
    requires small { number ≤ most_multiple }
    requires period { 1 ≤ period }
    requires short { period ≤ most_ticks }
    ensures { result ≡ lcm number period }
{
    let period = u128::from(period);
    number / gcd(number, period) * period
}

/// The greatest common divisor.
fn gcd(a: u128, b: u128) -> u128
    ensures { IsGcd a b result }
{
    let mut a = a;
    let mut b = b;
    while b != 0 {
        (a, b) = (b, a % b);
    }
    a
}
