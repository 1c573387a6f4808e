//! Sets and plans that the tests are about.
use std::alloc::Global;
use std::test::Fail;
use yt_log::{Job, Plan, PlanItem};
use yt_set::{Task, TaskSet};

/// A task by its cost, its period and its resource.
pub(crate) type TaskRow = (u64, u64, u32);

/// A plan's job by its task, its number, its arrival and its cost.
pub(crate) type JobRow = (u32, u32, u64, u64);

/// The set of these tasks.
pub(crate) fn set_of(alloc: Global, rows: &[TaskRow]) -> Result<TaskSet, Fail> {
    let mut tasks = Vec::new(alloc);
    for (cost, period, resource) in rows {
        tasks.push(Task {
            cost: *cost,
            period: *period,
            resource: *resource,
        })?;
    }
    match TaskSet::new(tasks) {
        Ok(set) => Ok(set),
        Err(_) => Err("no set".into()),
    }
}

/// The plan of these jobs, legal or not.
pub(crate) fn plan_of(alloc: Global, rows: &[JobRow]) -> Result<Plan, Fail> {
    let mut plan = Plan::new(alloc);
    for (task, number, arrival, cost) in rows {
        if *arrival < plan.last_arrival() {
            return Err("out of order".into());
        }
        plan.push(PlanItem {
            job: Job {
                task: *task,
                number: *number,
            },
            arrival: *arrival,
            cost: *cost,
        })?;
    }
    Ok(plan)
}
