//! What is proved of every task set, plan and log, as laws.
ghost use Rattle.yt_log.specs.Laws.{BlockersMiss, RuleIsNonClairvoyant, DemandKeeps, EveryDemandFits, FitsIsExact, FitsKeeps, FreeFitsKeeps, RuleIsOnline, OverloadsMiss, RuleIsDetermined, RuleIsLeast, RuleIsSafe, RuleMakesLogs, RuleMisses};
ghost use Rattle.yt_log.specs.Worked.{WorkedSchedules};

/// Where the load of a set fits and each job is due at its period's end, no span asks for more ticks than it has.
pub fn every_demand()
    ensures { EveryDemandFits }
{}

/// Where the load of a set doesn't fit, all tasks from zero on miss a deadline by the hyperperiod, in every lawful, work-conserving
/// and exclusive log of at least that many ticks.
pub fn overloads_miss()
    ensures { OverloadsMiss }
{}

/// Where a job that keeps its resource leaves no room in a span, it and what arrives after its first tick miss a deadline by the
/// span's end, in every lawful, work-conserving and exclusive log of at least that many ticks.
pub fn blockers_miss()
    ensures { BlockersMiss }
{}

/// Whatever the set, each log of the rule on a legal plan is lawful, work-conserving and exclusive.
pub fn rule_is_safe()
    ensures { RuleIsSafe }
{}

/// Where no span asks for more ticks than it has, and each task under a resource leaves room, each log of the rule on a legal plan
/// keeps its deadlines up to its length.
pub fn demand_keeps()
    ensures { DemandKeeps }
{}

/// Where a set fits, each log of the rule on a legal plan keeps its deadlines up to its length.
pub fn fits_keeps()
    ensures { FitsKeeps }
{}

/// Where no task of a set is under a resource, it is enough for this that no span asks for more ticks than it has.
pub fn free_fits_keeps()
    ensures { FreeFitsKeeps }
{}

/// Of a plan that must miss, the rule's own log misses too.
pub fn rule_misses()
    ensures { RuleMisses }
{}

/// A set fits exactly where it has no legal plan that must miss (`MustMiss`).
pub fn fits_is_exact()
    ensures { FitsIsExact }
{}

/// The rule makes a log of each length.
pub fn rule_makes_logs()
    ensures { RuleMakesLogs }
{}

/// Two logs of the rule, of one plan and one length, are one.
pub fn rule_is_determined()
    ensures { RuleIsDetermined }
{}

/// The rule gives a tick to the waiting job that no waiting job comes before.
pub fn rule_is_least()
    ensures { RuleIsLeast }
{}

/// What the rule gave stays right while jobs arrive and ticks go by.
pub fn rule_is_online()
    ensures { RuleIsOnline }
{}

/// Until a job is done, the rule gives the same whatever it will cost.
pub fn rule_is_non_clairvoyant()
    ensures { RuleIsNonClairvoyant }
{}

/// What the rule does with the jobs of small sets, and the patterns of sets that don't fit.
pub fn worked_schedules()
    ensures { WorkedSchedules }
{}
