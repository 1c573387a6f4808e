//! When the jobs of one task arrive in a pattern.
ghost use Rattle.std.specs.Prelude.{◌≡◌, ◌≤◌, length, Some};
ghost use Rattle.yt_list.specs.Numbered.{numbered};
ghost use Rattle.yt_witness.specs.Witnesses.{AreInRange, IsPatternOf, arrivals_of, as_arrivals};

use crate::pattern::Pattern;
use yt_set::TaskSet;

/// The jobs of a task in a pattern, all of one cost.
#[derive(Clone, Copy, Debug, PartialEq, Eq)]
pub struct Arrivals {
    /// The tick at which the first arrives.
    pub first: u64,
    /// How many ticks each later one arrives after the one before: the task's period.
    pub step: u64,
    /// How many they are; 0 where the task doesn't arrive.
    pub count: u128,
    /// The ticks that each costs: the task's greatest cost.
    pub cost: u64,
}

/// The arrivals of a task in a pattern, which are those that the pattern's plan is made of. The caller shows that the pattern is
/// the set's, as [`crate::witness`] gives it, and that the task, by its number from 1, is in the set. Takes no memory.
pub fn arrive(set: &TaskSet, pattern: &Pattern, task: u32) -> Arrivals
    requires its_pattern { IsPatternOf set.now pattern.now }
    requires positive { 1 ≤ task }
    requires within { task ≤ length set.now }
    ensures arrivals { numbered (arrivals_of set.now pattern.now) task ≡ Some (as_arrivals result) }
    ensures in_range { AreInRange (as_arrivals result) }
{
    let its = set.task(task);
    let (first, count) = match *pattern {
        Pattern::All { upto } => (0, upto / u128::from(its.period)),
        Pattern::Blocker { task: once, upto } => {
            if task == once {
                (0, 1)
            } else {
                (1, u128::from((upto - 1) / its.period))
            }
        }
    };
    Arrivals {
        first,
        step: its.period,
        count,
        cost: its.cost,
    }
}
