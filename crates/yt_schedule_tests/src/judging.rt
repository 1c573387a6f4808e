//! Logs, judged by the rules and by their deadlines.
use crate::fixtures::{JobRow, TaskRow, plan_of, set_of};
use std::alloc::Global;
use std::process::Abort;
use std::test::Fail;
use yt_log::{Job, Log, Miss, Rule, first_broken, first_miss};

const A: Job = Job { task: 1, number: 1 };

const A_2: Job = Job { task: 1, number: 2 };

const K: Job = Job { task: 2, number: 1 };

const B: Job = Job { task: 3, number: 1 };

/// A short period without a resource, and two tasks that share one, of which the second is long.
const SHARING: [TaskRow; 3] = [(2, 5, 0), (1, 8, 1), (4, 40, 1)];

/// Jobs of these, in the order in which they arrive: `B`, `A`, `K` and `A_2`.
const JOBS: [JobRow; 4] = [(3, 1, 0, 4), (1, 1, 1, 2), (2, 1, 1, 1), (1, 2, 6, 2)];

/// A log of these jobs, the ticks that it has, and what it breaks first.
type BrokenRow = (&'static [(u64, u64, Job)], u64, Option<(u64, Rule)>);

const BROKEN: &[BrokenRow] = &[
    (&[], 0, None),
    (&[], 3, Some((0, Rule::Idle))),
    (&[(0, 1, B)], 1, None),
    (
        &[(0, 1, B), (1, 3, A), (3, 6, B), (6, 7, K), (7, 9, A_2)],
        12,
        None,
    ),
    (
        &[(0, 1, B), (1, 3, A), (3, 4, K), (4, 7, B), (7, 9, A_2)],
        9,
        Some((3, Rule::Shared)),
    ),
    (
        &[(0, 1, B), (1, 3, A), (4, 7, B), (7, 8, K), (8, 10, A_2)],
        10,
        Some((3, Rule::Idle)),
    ),
    (&[(0, 2, A), (2, 6, B)], 6, Some((0, Rule::Unlawful))),
    (&[(0, 2, B), (2, 4, A)], 4, Some((1, Rule::NotLeast))),
    (&[(0, 1, B), (1, 4, A)], 4, Some((3, Rule::Unlawful))),
    (&[(0, 1, B), (1, 2, K)], 2, Some((1, Rule::Shared))),
    (
        &[(0, 1, B), (1, 3, A), (3, 6, B), (6, 8, A_2)],
        8,
        Some((6, Rule::NotLeast)),
    ),
    (
        &[(0, 1, B), (1, 3, A), (3, 6, B), (6, 7, K), (7, 10, A_2)],
        10,
        Some((9, Rule::Unlawful)),
    ),
    (&[(0, 1, B), (1, 2, A_2)], 2, Some((1, Rule::Unlawful))),
];

/// A log of these jobs, the ticks up to which it is judged, and the job that misses first.
type MissRow = (&'static [(u64, u64, Job)], u64, Option<Job>);

const MISSES: &[MissRow] = &[
    (&[], 5, None),
    (&[], 6, Some(A)),
    (&[(4, 6, A)], 8, None),
    (&[(5, 7, A)], 8, Some(A)),
    (&[(0, 2, A)], 9, Some(K)),
    (&[(0, 2, A), (8, 9, K)], 10, None),
    (&[(0, 2, A), (8, 9, K)], 11, Some(A_2)),
    (&[(0, 2, A), (2, 4, A_2), (4, 5, K)], 39, None),
    (&[(0, 2, A_2), (2, 4, A), (4, 5, K), (5, 8, B)], 40, Some(B)),
];

/// Jobs of two tasks with the same deadline, `K` and `A`.
const EQUALS: [JobRow; 2] = [(2, 1, 0, 3), (1, 1, 0, 3)];

/// The log in which jobs have these ticks, each from one to before another, and of so many ticks where it isn't longer.
fn log_of(alloc: Global, runs: &[(u64, u64, Job)], until: u64) -> Result<Log, Fail> {
    let mut log = Log::new(alloc);
    for (from, to, job) in runs {
        log.tell_idle(*from);
        if log.until() >= 1_000 || *to >= 1_000 {
            return Err("too long a log".into());
        }
        log.tell_run(*job, to.saturating_sub(*from))?;
    }
    log.tell_idle(until);
    Ok(log)
}

/// Checks what each log breaks first.
fn judge_broken(rt: &(impl Abort + AllocGlobal), rows: &[BrokenRow]) -> Result<(), Fail> {
    let alloc = rt.alloc();
    let set = set_of(alloc, &SHARING)?;
    let plan = plan_of(alloc, &JOBS)?;
    if !plan.legal(&set) {
        return Err("no plan".into());
    }
    for (runs, until, expected) in rows {
        let log = log_of(alloc, runs, *until)?;
        let broken = match first_broken(&set, &plan, &log) {
            Some(broken) => Some((broken.tick, broken.rule)),
            None => None,
        };
        assert_eq!(rt; broken, *expected);
    }
    Ok(())
}

#[test]
fn the_first_broken_rule_is_told(rt: HostRuntime) -> Result<(), Fail> {
    judge_broken(&rt, BROKEN)
}

/// Checks which job misses first in each log.
fn judge_misses(rt: &(impl Abort + AllocGlobal), rows: &[MissRow]) -> Result<(), Fail> {
    let alloc = rt.alloc();
    let set = set_of(alloc, &SHARING)?;
    let plan = plan_of(alloc, &JOBS)?;
    if !plan.legal(&set) {
        return Err("no plan".into());
    }
    for (runs, upto, expected) in rows {
        let log = log_of(alloc, runs, *upto)?;
        if log.until() < *upto {
            return Err("too short a log".into());
        }
        let miss = first_miss(&set, &plan, &log, *upto);
        assert_eq!(rt; miss.map(|miss| miss.job), *expected);
    }
    Ok(())
}

#[test]
fn the_first_miss_is_told(rt: HostRuntime) -> Result<(), Fail> {
    judge_misses(&rt, MISSES)
}

#[test]
fn of_equal_deadlines_the_first_task_misses(rt: HostRuntime) -> Result<(), Fail> {
    let alloc = rt.alloc();
    let set = set_of(alloc, &[(3, 5, 0), (3, 5, 0)])?;
    let plan = plan_of(alloc, &EQUALS)?;
    let log = log_of(alloc, &[(0, 2, K)], 5)?;
    if !plan.legal(&set) || log.until() < 5 {
        return Err("no plan".into());
    }
    assert_eq!(rt; first_miss(&set, &plan, &log, 4), None);
    assert_eq!(rt;
        first_miss(&set, &plan, &log, 5),
        Some(Miss { due: 5, job: A })
    );
    Ok(())
}
