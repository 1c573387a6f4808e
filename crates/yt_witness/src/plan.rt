//! The plan of a pattern.
ghost use Rattle.std.specs.Prelude.{◌≡◌, ◌≤◌, length, IfOk, IfErr};
ghost use Rattle.yt_log.specs.Patterns.{MustMiss, jobs_arriving};
ghost use Rattle.yt_log.specs.Plan.{IsInOrder, IsLegalPlan};
ghost use Rattle.yt_witness.specs.Witnesses.{AreInRange, IsFaultOf, IsPatternOf, IsShort, as_arrivals, horizon, job_count, plan_of};
ghost use Rattle.yt_witness.specs.declared.plan.PatternFault.TheVariants.{Memory};
ghost use Rattle.yt_witness.specs.declared.plan.TheConstants.{MOST_JOBS};

use crate::arrivals::{Arrivals, arrive};
use crate::merge::merge;
use crate::pattern::Pattern;
use std::alloc::{AllocError, Global};
use yt_log::{Job, Plan, PlanItem};
use yt_set::TaskSet;

/// The last tick by which a pattern's plan may have to miss a deadline.
const MOST_HORIZON: u128 = 4_000_000;

/// How many jobs a pattern's plan has at most.
const MOST_JOBS: u128 = 20_000;

/// Why a pattern's plan isn't made.
#[derive(Clone, Copy, Debug, PartialEq, Eq, Drop)]
pub enum PatternFault {
    /// The pattern has its horizon after tick 4,000,000, or more than 20,000 jobs.
    Long {
        /// The horizon.
        upto: u128,
        /// How many jobs it has.
        jobs: u128,
    },
    /// Memory ran out.
    Memory,
}

impl From<AllocError> for PatternFault {
    ghost from_gives = { λ _ e. e ≡ Memory };

    fn from(_error: AllocError) -> Self {
        PatternFault::Memory
    }
}

/// The plan of a pattern: the jobs of all its arrivals, in order of arrival and then of task. It is legal, and must miss a deadline by the
/// pattern's horizon. `Long` comes exactly where the pattern has its horizon after tick 4,000,000, or more than 20,000 jobs. The caller
/// shows that the pattern is the set's, as [`crate::witness`] gives it. Takes time linear in the jobs, for each task.
pub fn plan_of(alloc: Global, set: &TaskSet, pattern: &Pattern) -> Result<Plan, PatternFault>
    requires { IsPatternOf set.now pattern.now }
    ensures ok { IfOk result (λ plan. plan ≡ plan_of set.now pattern.now) }
    ensures short { IfOk result (λ _. IsShort set.now pattern.now) }
    ensures legal { IfOk result (λ plan. IsLegalPlan set.now plan) }
    ensures misses { IfOk result (λ plan. MustMiss set.now plan (horizon pattern.now)) }
    ensures err { IfErr result (λ fault. IsFaultOf set.now pattern.now fault) }
{
    // Tells the proof that the set is in range.
    prove!(set.len() <= 64);
    let upto = pattern.horizon();
    let jobs = job_count(set, pattern);
    if upto > MOST_HORIZON || jobs > MOST_JOBS {
        return Err(PatternFault::Long { upto, jobs });
    }
    let items = all_jobs(alloc, set, pattern)?;
    Ok(in_order(alloc, &items)?)
}

/// How many jobs a pattern has.
fn job_count(set: &TaskSet, pattern: &Pattern) -> u128
    requires { IsPatternOf set.now pattern.now }
    ensures { result ≡ job_count set.now pattern.now }
{
    let mut jobs = 0;
    for n in 0..set.len() {
        jobs += arrive(set, pattern, n + 1).count;
    }
    jobs
}

/// The jobs of a pattern that is short, in order of arrival and then of task. `Err` comes where memory ran out.
fn all_jobs(alloc: Global, set: &TaskSet, pattern: &Pattern) -> Result<Vec<PlanItem>, AllocError>
    requires pattern { IsPatternOf set.now pattern.now }
    requires short { IsShort set.now pattern.now }
    ensures { IfOk result (λ items. items.items ≡ plan_of set.now pattern.now) }
{
    let mut items = Vec::new(alloc);
    let mut task = set.len();
    while task > 0 {
        let jobs = jobs_of(alloc, task, arrive(set, pattern, task))?;
        items = merge(alloc, &jobs, &items)?;
        task -= 1;
    }
    Ok(items)
}

/// The jobs of a task, in order. `Err` comes where memory ran out.
fn jobs_of(alloc: Global, task: u32, arrivals: Arrivals) -> Result<Vec<PlanItem>, AllocError>
    requires in_range { AreInRange (as_arrivals arrivals) }
    requires few { arrivals.count ≤ MOST_JOBS }
    ensures { IfOk result (λ jobs. jobs.items ≡ jobs_arriving task (as_arrivals arrivals) arrivals.count) }
{
    let mut jobs = Vec::new(alloc);
    for n in 0..arrivals.count as u32 {
        jobs.push(PlanItem {
            job: Job {
                task,
                number: n + 1,
            },
            arrival: arrivals.first + u64::from(n) * arrivals.step,
            cost: arrivals.cost,
        })?;
    }
    Ok(jobs)
}

/// The plan of jobs in order of arrival. `Err` comes where memory ran out.
fn in_order(alloc: Global, items: &[PlanItem]) -> Result<Plan, AllocError>
    requires { IsInOrder items.now }
    ensures { IfOk result (λ plan. plan ≡ items.now) }
{
    let mut plan = Plan::new(alloc);
    for item in items {
        plan.push(*item)?;
    }
    Ok(plan)
}
