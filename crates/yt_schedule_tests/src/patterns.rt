//! Patterns of arrivals with which sets that don't fit miss.
use crate::fixtures::{JobRow, TaskRow, set_of};
use std::alloc::Global;
use std::process::Abort;
use std::test::Fail;
use yt_fits::fits;
use yt_log::PlanItem;
use yt_witness::{Pattern, PatternFault, arrive, plan_of, witness};

/// Two tasks that don't fit; their pattern; and the arrivals of each task in it, by first tick, step, count and cost.
type Row = ([TaskRow; 2], Pattern, [(u64, u64, u128, u64); 2]);

const PATTERNS: [Row; 3] = [
    (
        [(5, 10, 0), (11, 20, 0)],
        Pattern::All { upto: 20 },
        [(0, 10, 2, 5), (0, 20, 1, 11)],
    ),
    (
        [(1, 4, 1), (5, 20, 1)],
        Pattern::Blocker { task: 2, upto: 5 },
        [(1, 4, 1, 1), (0, 20, 1, 5)],
    ),
    (
        [(10, 100, 1), (1, 9, 1)],
        Pattern::Blocker { task: 1, upto: 10 },
        [(0, 100, 1, 10), (1, 9, 1, 1)],
    ),
];

/// Checks the pattern of each set.
fn judge(rt: &(impl Abort + AllocGlobal), rows: &[Row]) -> Result<(), Fail> {
    for (tasks, expected, arrivals) in rows {
        let set = set_of(rt.alloc(), tasks)?;
        let why = match fits(&set) {
            Ok(_) => return Err("fits".into()),
            Err(why) => why,
        };
        let pattern = match witness(&set, &why) {
            Some(pattern) => pattern,
            None => return Err("no pattern".into()),
        };
        assert_eq!(rt; pattern, *expected);
        if set.len() != 2 {
            return Err("too few tasks".into());
        }
        for n in 0..2u32 {
            let told = arrive(&set, &pattern, n + 1);
            let numbers = (told.first, told.step, told.count, told.cost);
            assert_eq!(rt; numbers, arrivals[n as usize]);
        }
    }
    Ok(())
}

#[test]
fn a_set_that_does_not_fit_has_a_pattern(rt: HostRuntime) -> Result<(), Fail> {
    let rows = PATTERNS;
    judge(&rt, rows.as_slice())
}

/// The jobs of the plan of the pattern with which a set misses; or the tick of its horizon and how many they are, where the plan is too
/// long.
fn planned(alloc: Global, tasks: &[TaskRow]) -> Result<Result<Vec<PlanItem>, (u128, u128)>, Fail> {
    let set = set_of(alloc, tasks)?;
    let why = match fits(&set) {
        Ok(_) => return Err("fits".into()),
        Err(why) => why,
    };
    let pattern = match witness(&set, &why) {
        Some(pattern) => pattern,
        None => return Err("no pattern".into()),
    };
    match plan_of(alloc, &set, &pattern) {
        Ok(plan) => Ok(Ok(plan.items().to_vec(alloc)?)),
        Err(PatternFault::Long { upto, jobs }) => Ok(Err((upto, jobs))),
        Err(PatternFault::Memory) => Err("no memory".into()),
    }
}

/// Checks the plan of a pattern.
fn judge_plan(
    rt: &(impl Abort + AllocGlobal),
    tasks: &[TaskRow],
    jobs: &[JobRow],
) -> Result<(), Fail> {
    let items = match planned(rt.alloc(), tasks)? {
        Ok(items) => items,
        Err(_) => return Err("too long".into()),
    };
    let mut rows = Vec::new(rt.alloc());
    for item in &items {
        rows.push((item.job.task, item.job.number, item.arrival, item.cost))?;
    }
    assert_eq!(rt; rows.as_slice(), jobs);
    Ok(())
}

#[test]
fn a_patterns_plan_goes_by_arrival_and_task(rt: HostRuntime) -> Result<(), Fail> {
    judge_plan(
        &rt,
        &[(5, 10, 0), (11, 20, 0)],
        &[(1, 1, 0, 5), (2, 1, 0, 11), (1, 2, 10, 5)],
    )?;
    judge_plan(&rt, &[(1, 4, 1), (5, 20, 1)], &[(2, 1, 0, 5), (1, 1, 1, 1)])?;
    judge_plan(
        &rt,
        &[(3, 6, 0), (1, 5, 1), (5, 30, 1)],
        &[(3, 1, 0, 5), (1, 1, 1, 3), (2, 1, 1, 1)],
    )
}

#[test]
fn a_long_pattern_has_no_plan(rt: HostRuntime) -> Result<(), Fail> {
    let alloc = rt.alloc();
    for (tasks, expected) in [
        ([(1, 1, 0), (1, 20_000, 0)], Err((20_000, 20_001))),
        ([(1, 1, 0), (1, 19_999, 0)], Ok(20_000)),
        (
            [(1_000_000, 999_999, 0), (1, 1_000_000, 0)],
            Err((999_999_000_000, 1_999_999)),
        ),
        ([(1_000_000, 1_000_000, 0), (1, 800_000, 0)], Ok(9)),
        (
            [(1_000_000, 1_000_000, 0), (1, 640_000, 0)],
            Err((16_000_000, 41)),
        ),
    ] {
        let count = planned(alloc, tasks.as_slice())?.map(|items| items.len());
        assert_eq!(rt; count, expected);
    }
    Ok(())
}
