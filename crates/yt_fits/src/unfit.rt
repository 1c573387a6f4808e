//! Whether a set fits.
ghost use Rattle.std.specs.Prelude.{◌≡◌, ◌≤◌, IfOk, IfErr};
ghost use Rattle.yt_set.specs.Tasks.{Fits, hyperperiod};
ghost use Rattle.yt_fits.specs.Loads.{hyperperiod_limit, load_sum};
ghost use Rattle.yt_fits.specs.Unfits.{IsReason, IsUnfit, NamesTaskOf};

use crate::interval::Breach;
use crate::sums::{LoadSum, load};
use crate::walking::interval_walk;
use yt_set::TaskSet;

/// Why a set doesn't fit. Of several reasons the first in this order counts.
#[derive(Debug, PartialEq, Eq, Drop)]
pub enum Unfit {
    /// The hyperperiod passes 2^100. It is the first task, by its number from 1, with whose period it does.
    Hyperperiod(u32),
    /// The load is greater than the hyperperiod.
    Overload(LoadSum),
    /// A job that keeps its resource leaves too little room for others. It is the shortest span in which one does, and the first
    /// task whose job does so in it.
    Interval(Breach),
}

/// Whether a set fits: its load is at most its hyperperiod, which is at most 2^100, and each job that keeps a resource leaves room
/// for others; with the load, or why not. A reason names tasks of the set alone. Takes no memory.
pub fn fits(set: &TaskSet) -> Result<LoadSum, Unfit>
    ensures ok { IfOk result (λ sum. sum ≡ load_sum set.now) }
    ensures narrow { IfOk result (λ sum. hyperperiod set.now ≤ hyperperiod_limit set.now) }
    ensures fits { IfOk result (λ sum. Fits set.now) }
    ensures err { IfErr result (λ why. IsReason set.now why) }
    ensures unfit { IfErr result (λ why. IsUnfit set.now) }
    ensures named { IfErr result (λ why. NamesTaskOf set.now why) }
{
    match load(set) {
        Err(wide) => Err(Unfit::Hyperperiod(wide.task)),
        Ok(sum) if sum.part > sum.whole => Err(Unfit::Overload(sum)),
        Ok(sum) => match interval_walk(set) {
            Some(breach) => Err(Unfit::Interval(breach)),
            None => Ok(sum),
        },
    }
}
