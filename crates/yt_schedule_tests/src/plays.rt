//! Plays of whole plans.
use crate::fixtures::{JobRow, TaskRow, plan_of, set_of};
use std::alloc::Global;
use std::test::Fail;
use yt_exec::play;

/// The segments of a play, each its first tick, the tick after its last, a task and a number.
fn played(
    alloc: Global,
    tasks: &[TaskRow],
    jobs: &[JobRow],
    upto: u64,
) -> Result<Vec<(u64, u64, u32, u32)>, Fail> {
    let set = set_of(alloc, tasks)?;
    let plan = plan_of(alloc, jobs)?;
    if !plan.legal(&set) || 9_000_000 < upto {
        return Err("no legal plan".into());
    }
    let log = play(alloc, &set, &plan, upto)?;
    if log.until() != upto {
        return Err("no whole log".into());
    }
    let mut segments = Vec::new(alloc);
    for segment in log.segments() {
        segments.push((
            segment.from,
            segment.to,
            segment.job.task,
            segment.job.number,
        ))?;
    }
    Ok(segments)
}

#[test]
fn a_begun_job_keeps_its_resource(rt: HostRuntime) -> Result<(), Fail> {
    let tasks = [(2, 5, 0), (1, 8, 1), (4, 40, 1)];
    let jobs = [(3, 1, 0, 4), (1, 1, 1, 2), (2, 1, 1, 1), (1, 2, 6, 2)];
    let expected = [
        (0, 1, 3, 1),
        (1, 3, 1, 1),
        (3, 6, 3, 1),
        (6, 7, 2, 1),
        (7, 9, 1, 2),
    ];
    assert_eq!(rt;
        played(rt.alloc(), &tasks, &jobs, 12)?.as_slice(),
        expected.as_slice()
    );
    Ok(())
}

#[test]
fn an_urgent_job_interrupts(rt: HostRuntime) -> Result<(), Fail> {
    let tasks = [(2, 5, 0), (20, 100, 0)];
    let jobs = [(2, 1, 0, 20), (1, 1, 1, 2)];
    let expected = [(0, 1, 2, 1), (1, 3, 1, 1), (3, 22, 2, 1)];
    assert_eq!(rt;
        played(rt.alloc(), &tasks, &jobs, 30)?.as_slice(),
        expected.as_slice()
    );
    Ok(())
}

#[test]
fn overloads_are_played(rt: HostRuntime) -> Result<(), Fail> {
    let alloc = rt.alloc();
    let tasks = [(5, 10, 0), (11, 20, 0)];
    let jobs = [(1, 1, 0, 5), (2, 1, 0, 11), (1, 2, 10, 5)];
    let expected = [(0, 5, 1, 1), (5, 16, 2, 1), (16, 20, 1, 2)];
    assert_eq!(rt;
        played(alloc, &tasks, &jobs, 20)?.as_slice(),
        expected.as_slice()
    );
    let jobs = [(1, 1, 0, 5), (1, 2, 10, 5), (1, 3, 20, 5)];
    let expected = [(0, 5, 1, 1), (10, 14, 1, 2)];
    assert_eq!(rt;
        played(alloc, &tasks, &jobs, 14)?.as_slice(),
        expected.as_slice()
    );
    Ok(())
}

#[test]
fn a_play_goes_up_to_the_last_deadline(rt: HostRuntime) -> Result<(), Fail> {
    let tasks = [(1_000_000, 1_000_000, 0)];
    let jobs = [(1, 1, 0, 1), (1, 2, 8_000_000, 1_000_000)];
    let expected = [(0, 1, 1, 1), (8_000_000, 9_000_000, 1, 2)];
    assert_eq!(rt;
        played(rt.alloc(), &tasks, &jobs, 9_000_000)?.as_slice(),
        expected.as_slice()
    );
    Ok(())
}

#[test]
fn equal_tasks_go_by_their_numbers(rt: HostRuntime) -> Result<(), Fail> {
    let tasks = [(5, 4, 0), (5, 4, 0)];
    let jobs = [(1, 1, 0, 5), (2, 1, 0, 5), (1, 2, 4, 5), (2, 2, 4, 5)];
    let expected = [(0, 5, 1, 1), (5, 10, 2, 1), (10, 15, 1, 2), (15, 18, 2, 2)];
    assert_eq!(rt;
        played(rt.alloc(), &tasks, &jobs, 18)?.as_slice(),
        expected.as_slice()
    );
    Ok(())
}
