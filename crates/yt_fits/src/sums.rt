//! The load of a set over its hyperperiod.
ghost use Rattle.std.specs.Prelude.{◌≡◌, ◌*◌, ◌/◌, ◌<◌, ◌≤◌, IfOk, IfErr};
ghost use Rattle.yt_set.specs.Limits.{most_ticks};
ghost use Rattle.yt_set.specs.Tasks.{hyperperiod, load};
ghost use Rattle.yt_fits.specs.Loads.{IsFirstWide, hyperperiod_limit, load_sum, most_multiple};

use crate::multiple::lcm;
use yt_set::{Task, TaskSet};

/// The greatest multiple of periods that is computed with.
const MOST_MULTIPLE: u128 = 1 << 100;

/// The two sides of the load's condition, which holds where `part` is at most `whole`.
#[derive(Clone, Copy, Debug, PartialEq, Eq)]
pub struct LoadSum {
    /// The ticks that the jobs of one hyperperiod cost.
    pub part: u128,
    /// The hyperperiod in ticks: the least common multiple of all periods.
    pub whole: u128,
}

/// The hyperperiod passes 2^100.
#[derive(Clone, Copy, Debug, PartialEq, Eq)]
pub struct TooWide {
    /// The first task, by its number from 1, with whose period the least common multiple of the periods so far passes it.
    pub task: u32,
}

/// The load of a set over its hyperperiod. It is refused exactly where the hyperperiod passes 2^100. Takes no memory.
pub fn load(set: &TaskSet) -> Result<LoadSum, TooWide>
    ensures ok { IfOk result (λ sum. sum ≡ load_sum set.now) }
    ensures narrow { IfOk result (λ sum. hyperperiod set.now ≤ hyperperiod_limit set.now) }
    ensures err { IfErr result (λ wide. IsFirstWide set.now wide.task) }
    ensures wide { IfErr result (λ wide. hyperperiod_limit set.now < hyperperiod set.now) }
{
    let whole = whole(set)?;
    Ok(LoadSum {
        part: part(set, whole),
        whole,
    })
}

/// The greatest hyperperiod that a set may have.
fn hyperperiod_limit(_set: &TaskSet) -> u128
    ensures { result ≡ hyperperiod_limit _set.now }
{
    MOST_MULTIPLE
}

/// The hyperperiod.
fn whole(set: &TaskSet) -> Result<u128, TooWide>
    ensures ok { IfOk result (λ whole. whole ≡ hyperperiod set.now) }
    ensures narrow { IfOk result (λ whole. whole ≤ hyperperiod_limit set.now) }
    ensures err { IfErr result (λ wide. IsFirstWide set.now wide.task) }
    ensures wide { IfErr result (λ wide. hyperperiod_limit set.now < hyperperiod set.now) }
{
    let limit = hyperperiod_limit(set);
    let mut whole = 1;
    for n in 0..set.len() {
        whole = lcm(whole, set.task(n + 1).period);
        if whole > limit {
            return Err(TooWide { task: n + 1 });
        }
    }
    Ok(whole)
}

/// The load over so many ticks.
fn part(set: &TaskSet, whole: u128) -> u128
    requires { whole ≤ most_multiple }
    ensures { result ≡ load set.now whole }
{
    let mut part = 0;
    for n in 0..set.len() {
        part += cost_in(set.task(n + 1), whole);
    }
    part
}

/// What a task's jobs cost in so many ticks where they come as soon as they may.
fn cost_in(task: Task, ticks: u128) -> u128
    requires positive { 1 ≤ task.period }
    requires small { ticks ≤ most_multiple }
    requires cheap { task.cost ≤ most_ticks }
    ensures value { result ≡ task.cost * (ticks / task.period) }
    ensures bound { result ≤ most_ticks * most_multiple }
{
    u128::from(task.cost) * (ticks / u128::from(task.period))
}
