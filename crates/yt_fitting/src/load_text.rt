//! The load of a set, as it is printed.
ghost use Rattle.std.specs.Prelude.{◌≡◌, ◌∷◌, ◌++◌, OnOk, decimal};

use std::alloc::AllocError;
use yt_base::Text;
use yt_fits::LoadSum;

/// Adds a set's load over its hyperperiod, and the hyperperiod. `Err` comes where memory ran out.
pub(crate) fn put_load(text: &mut Text, sum: LoadSum) -> Result<(), AllocError>
    ensures { OnOk result (text.new ≡ text.old ++ decimal sum.part ++ 47 ∷ decimal sum.whole) }
{
    let LoadSum { part, whole } = sum;
    text.put_u128(part)?;
    text.put(b"/")?;
    text.put_u128(whole)
}
