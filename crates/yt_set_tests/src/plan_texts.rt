//! Texts of plans.
use std::alloc::Global;
use std::process::Abort;
use std::test::Fail;
use yt_base::Line;
use yt_log::{Job, PlanFault, PlanItem, read_plan};
use yt_set::{NamedSet, SetFault, read_set};

/// Texts of plans of the tasks `A 5 10` and `B 3 20`, and their faults.
const TEXTS: &[(&str, Option<PlanFault>)] = &[
    ("", None),
    ("# c\n\n 0\tA  5 \r\n", None),
    ("0 A", Some(PlanFault::Form(1))),
    ("0 A 5 x", Some(PlanFault::Form(1))),
    ("-1 A 5", Some(PlanFault::Form(1))),
    ("0 C 5x", Some(PlanFault::Form(1))),
    ("0 C 0", Some(PlanFault::Unknown(1))),
    ("4000001 A 0", Some(PlanFault::Cost(1))),
    ("0 A 6", Some(PlanFault::Cost(1))),
    ("0 B 4", Some(PlanFault::Cost(1))),
    ("0 A 18446744073709551617", Some(PlanFault::Cost(1))),
    ("000 A 00000000000000000000005", None),
    ("4000000 A 5", None),
    ("4000001 A 5", Some(PlanFault::Late(1))),
    ("18446744073709551616 A 5", Some(PlanFault::Late(1))),
    ("9 A 5\n# c\n\n8 B 3", Some(PlanFault::Order(4))),
    ("9 A 5\n8 A 5", Some(PlanFault::Order(2))),
    (
        "9 A 5\n9 B 3\n19 A 1\n28 A 1",
        Some(PlanFault::Soon { line: 4, least: 29 }),
    ),
    (
        "0 B 1\n19 B 1",
        Some(PlanFault::Soon { line: 2, least: 20 }),
    ),
    ("0 A 1\n1 B 1\n10 A 1\n20 A 1\n21 B 1", None),
    ("4000000 A 1\n4000001 A 1", Some(PlanFault::Late(2))),
    ("0 A 6\n0 A", Some(PlanFault::Cost(1))),
];

/// The set of a text, with its names.
fn named_set(alloc: Global, text: &[u8]) -> Result<NamedSet, Fail> {
    match read_set(alloc, &text[..text.len().min(10_000)]) {
        Ok(set) => Ok(set),
        Err(SetFault::Line(_, _)) => Err("no set".into()),
        Err(SetFault::Memory) => Err("no memory".into()),
    }
}

/// The fault of a plan's text, cut off where it is long; `None` where it says a plan.
fn fault(alloc: Global, set: &NamedSet, text: &[u8]) -> Result<Option<PlanFault>, Fail> {
    match read_plan(alloc, set, &text[..text.len().min(400_000)]) {
        Ok(_) => Ok(None),
        Err(PlanFault::Memory) => Err("no memory".into()),
        Err(fault) => Ok(Some(fault)),
    }
}

/// Checks the first fault of each text.
fn judge_texts(
    rt: &(impl Abort + AllocGlobal),
    rows: &[(&str, Option<PlanFault>)],
) -> Result<(), Fail> {
    let alloc = rt.alloc();
    let set = named_set(alloc, b"task A 5 10\ntask B 3 20")?;
    for (text, expected) in rows {
        assert_eq!(rt;
            fault(alloc, &set, text.as_bytes())?,
            *expected,
            "at {text}"
        );
    }
    Ok(())
}

#[test]
fn the_first_fault_is_told(rt: HostRuntime) -> Result<(), Fail> {
    judge_texts(&rt, TEXTS)
}

#[test]
fn jobs_are_numbered_by_task(rt: HostRuntime) -> Result<(), Fail> {
    let alloc = rt.alloc();
    let set = named_set(alloc, b"task A 5 10\ntask B 3 20")?;
    let Ok(plan) = read_plan(alloc, &set, b"0 A 5\n3 B 1\n\n10 A 2") else {
        return Err("no plan".into());
    };
    let items = [item((1, 1, 0, 5)), item((2, 1, 3, 1)), item((1, 2, 10, 2))];
    assert_eq!(rt; plan.items(), items.as_slice());
    assert_eq!(rt; plan.len(), 3);
    assert_eq!(rt; plan.last_arrival(), 10);
    Ok(())
}

/// The item of a job's task, its number, its arrival and its cost.
fn item(job: (u32, u32, u64, u64)) -> PlanItem {
    PlanItem {
        job: Job {
            task: job.0,
            number: job.1,
        },
        arrival: job.2,
        cost: job.3,
    }
}

#[test]
fn a_plan_has_at_most_20_000_jobs(rt: HostRuntime) -> Result<(), Fail> {
    let alloc = rt.alloc();
    let set = named_set(alloc, b"task A 1 1")?;
    let mut text = Vec::new(alloc);
    for n in 0..20_000u64 {
        let mut line = Line::new();
        line.put_u64(n);
        line.put(b" A 1\n");
        text.extend_from_slice(line.bytes())?;
    }
    assert_eq!(rt; fault(alloc, &set, &text)?, None);
    text.extend_from_slice(b"20000 A 1")?;
    assert_eq!(rt; fault(alloc, &set, &text)?, Some(PlanFault::Many(20_001)));
    Ok(())
}
