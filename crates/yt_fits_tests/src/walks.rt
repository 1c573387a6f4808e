//! Sets on which both ways answer the same.
ghost use Rattle.std.specs.Prelude.{◌<◌};

use std::alloc::Global;
use std::process::Abort;
use std::test::Fail;
use yt_fits::{Breach, interval_plain, interval_walk};
use yt_set::{Task, TaskSet};

/// A task by its cost, its period and its resource.
type TaskRow = (u64, u64, u32);

/// The set of these tasks.
fn set_of(tasks: Vec<Task>) -> Result<TaskSet, Fail> {
    match TaskSet::new(tasks) {
        Ok(set) => Ok(set),
        Err(_) => Err("no set".into()),
    }
}

/// The set of the first of three tasks, so many of them.
fn some_of(alloc: Global, rows: &[TaskRow], count: usize) -> Result<TaskSet, Fail> {
    let mut tasks = Vec::new(alloc);
    for (cost, period, resource) in rows.iter().take(count) {
        tasks.push(Task {
            cost: *cost,
            period: *period,
            resource: *resource,
        })?;
    }
    set_of(tasks)
}

/// Sets: three tasks, how many of them count, and where the first lacks room, by the task, the span and the need.
type Row = ([TaskRow; 3], usize, Option<(u32, u64, u128)>);

const NONE: TaskRow = (1, 1, 0);

const ROWS: [Row; 10] = [
    ([(5, 10, 0), (10, 20, 0), NONE], 2, None),
    ([(5, 10, 0), (11, 20, 0), NONE], 2, None),
    ([(1, 4, 1), (5, 20, 1), NONE], 2, Some((2, 5, 6))),
    ([(1, 4, 1), (4, 20, 1), NONE], 2, None),
    ([(1, 4, 0), (5, 20, 0), NONE], 2, None),
    ([(3, 6, 0), (1, 5, 1), (5, 30, 1)], 3, Some((3, 7, 9))),
    ([(2, 5, 0), (1, 8, 1), (4, 40, 1)], 3, None),
    ([(1, 1_000_000, 0), NONE, NONE], 1, None),
    ([(1, 2, 1), (1, 1_000_000, 1), NONE], 2, None),
    ([NONE, NONE, NONE], 0, None),
];

#[test]
fn both_find_the_worked_breaches(rt: HostRuntime) -> Result<(), Fail> {
    let rows = ROWS;
    for (tasks, count, expected) in rows.as_slice() {
        let set = some_of(rt.alloc(), tasks.as_slice(), *count)?;
        let breach = expected.map(|(task, len, need)| Breach { task, len, need });
        assert_eq!(rt; interval_plain(&set), breach);
        assert_eq!(rt; interval_walk(&set), breach);
    }
    Ok(())
}

/// A set made by arithmetic: from 1 to 64 tasks, in few or many periods, under none to four resources.
fn made(alloc: Global, n: u64) -> Result<TaskSet, Fail>
    requires { n < 240 }
{
    let count = n * 7 % 64 + 1;
    let kinds = n % 9 + 1;
    let mut tasks = Vec::new(alloc);
    for k in 0..count {
        let period = 20 + k % kinds * (n % 11 + 3) + n % 5 * (k % 2);
        let long = if k % 13 == 5 { 10 } else { 1 };
        tasks.push(Task {
            cost: 1 + (n + k) * k % 4 * (n % 3),
            period: period * long,
            resource: ((k + n) % (n % 5 + 1)) as u32,
        })?;
    }
    set_of(tasks)
}

#[test]
fn both_answer_the_same(rt: HostRuntime) -> Result<(), Fail> {
    for n in 0..240 {
        let set = made(rt.alloc(), n)?;
        assert_eq!(rt; interval_walk(&set), interval_plain(&set));
    }
    Ok(())
}

/// One task costs so much, has the period 100 and shares its resource with one of period 10; another, under none, has the period 10 too.
fn edge(alloc: Global, cost: u64) -> Result<TaskSet, Fail> {
    some_of(
        alloc,
        [(1, 10, 0), (1, 10, 1), (cost, 100, 1)].as_slice(),
        3,
    )
}

#[test]
fn a_breach_is_found_at_the_first_and_at_the_last_point(rt: HostRuntime) -> Result<(), Fail> {
    for (cost, expected) in [(9, None), (10, Some((3, 11, 12)))] {
        let set = edge(rt.alloc(), cost)?;
        let breach = expected.map(|(task, len, need)| Breach { task, len, need });
        assert_eq!(rt; interval_walk(&set), breach);
    }
    // A demand that comes with the last point alone: at 98 ticks 97 are asked for by what costs most.
    let last = some_of(
        rt.alloc(),
        [(1, 10, 1), (90, 98, 0), (3, 100, 1)].as_slice(),
        3,
    )?;
    let breach = Breach {
        task: 3,
        len: 99,
        need: 102,
    };
    assert_eq!(rt; interval_walk(&last), Some(breach));
    assert_eq!(rt; interval_plain(&last), Some(breach));
    Ok(())
}
