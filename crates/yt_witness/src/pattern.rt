//! The pattern that shows that a set doesn't fit.
ghost use Rattle.std.specs.Prelude.{◌≡◌, ◌↔◌, None, IfSome};
ghost use Rattle.yt_fits.specs.Unfits.{IsReason};
ghost use Rattle.yt_fits.specs.declared.unfit.Unfit.TheVariants.{Overload, Interval};
ghost use Rattle.yt_log.specs.Patterns.{MustMiss};
ghost use Rattle.yt_witness.specs.Witnesses.{IsPatternOf, IsWide, horizon, pattern_of, plan_of};
ghost use Rattle.yt_witness.specs.declared.pattern.Pattern.TheVariants.{All, Blocker};

use yt_fits::{Breach, LoadSum, Unfit};
use yt_set::TaskSet;

/// Arrivals with which every lawful, work-conserving and exclusive schedule of a set that is told up to tick `upto` misses a deadline
/// by it. All jobs cost the most that their tasks may.
#[derive(Clone, Copy, Debug, PartialEq, Eq)]
pub enum Pattern {
    /// Each task from tick 0 on, at its period, as often as its jobs can be due by tick `upto`, which is the hyperperiod.
    All {
        /// A deadline is missed by this tick.
        upto: u128,
    },
    /// One task once, at tick 0; each other one from tick 1 on, at its period, as often as its jobs can be due by tick `upto`.
    Blocker {
        /// The task that arrives once, by its number from 1. Its job keeps its resource while the others wait.
        task: u32,
        /// A deadline is missed by this tick.
        upto: u64,
    },
}

impl Pattern {
    /// The tick by which a deadline is missed.
    pub fn horizon(&self) -> u128
        ensures { result ≡ horizon self.now }
    {
        match *self {
            Pattern::All { upto } => upto,
            Pattern::Blocker { upto, .. } => u128::from(upto),
        }
    }
}

/// The pattern that shows a reason: that of all tasks for an overload, that of a blocker for an interval. `None` comes exactly
/// for a hyperperiod that is too great. The caller shows that the reason is what [`yt_fits::fits`] answers of the set. Takes no
/// memory.
pub fn witness(set: &TaskSet, why: &Unfit) -> Option<Pattern>
    requires { IsReason set.now why.now }
    ensures value { result ≡ pattern_of why.now }
    ensures none { result ≡ None ↔ IsWide why.now }
    ensures its_pattern { IfSome result (λ pattern. IsPatternOf set.now pattern) }
    ensures misses { IfSome result (λ pattern. MustMiss set.now (plan_of set.now pattern) (horizon pattern)) }
{
    match *why {
        Unfit::Hyperperiod(_) => None,
        Unfit::Overload(sum) => Some(load_pattern(set, sum)),
        Unfit::Interval(breach) => Some(room_pattern(set, breach)),
    }
}

/// The pattern of all tasks, which shows that the load of a set doesn't fit. The caller shows that this load is why. Takes no
/// memory.
pub fn load_pattern(set: &TaskSet, sum: LoadSum) -> Pattern
    requires { IsReason set.now (Overload sum) }
    ensures value { result ≡ All sum.whole }
    ensures its_pattern { IsPatternOf set.now result }
    ensures misses { MustMiss set.now (plan_of set.now result) (horizon result) }
{
    // Tells the proof that the set is in range.
    prove!(set.len() <= 64);
    Pattern::All { upto: sum.whole }
}

/// The pattern of a blocker, which shows that a task of a set lacks room. The caller shows that this breach is why. Takes no
/// memory.
pub fn room_pattern(set: &TaskSet, breach: Breach) -> Pattern
    requires { IsReason set.now (Interval breach) }
    ensures value { result ≡ Blocker breach.task breach.len }
    ensures its_pattern { IsPatternOf set.now result }
    ensures misses { MustMiss set.now (plan_of set.now result) (horizon result) }
{
    // Tells the proof that the set is in range.
    prove!(set.len() <= 64);
    Pattern::Blocker {
        task: breach.task,
        upto: breach.len,
    }
}
