//! Texts of sets, sets in range, and what a set tells.
ghost use Rattle.std.specs.Prelude.{◌≤◌, length};

use std::alloc::{AllocError, Global};
use std::process::Abort;
use std::test::Fail;
use yt_base::{Line, Text};
use yt_set::{LineFault, NamedSet, SetFault, Task, TaskSet, put_task, read_set};

/// The fault of a text; `None` where it says a set.
fn fault(alloc: Global, text: &[u8]) -> Result<Option<(u32, LineFault)>, Fail> {
    if text.len() > u32::MAX as usize {
        return Err("a text of 4 GB".into());
    }
    match read_set(alloc, text) {
        Ok(_) => Ok(None),
        Err(SetFault::Line(line, fault)) => Ok(Some((line, fault))),
        Err(SetFault::Memory) => Err("no memory".into()),
    }
}

/// Texts, and the line and kind of their first fault; `None` where they say a set.
const TEXTS: &[(&str, Option<(u32, LineFault)>)] = &[
    ("", None),
    ("\n\r\n \t\n# x\n  #x y", None),
    ("task A 5 10", None),
    ("task A 5 10\r", None),
    ("task A 5 10\r\r", Some((1, LineFault::Form))),
    ("\ttask  A\t5 10 r \n", None),
    ("task A 5", Some((1, LineFault::Form))),
    ("task A 5 10 r s", Some((1, LineFault::Form))),
    ("task A 5 10 # c", Some((1, LineFault::Form))),
    ("Task A 5 10", Some((1, LineFault::Form))),
    ("tasks A 5 10", Some((1, LineFault::Form))),
    ("task A -5 10", Some((1, LineFault::Form))),
    ("\n# c\ntask A 5 1x\ntask", Some((3, LineFault::Form))),
    ("task A! 5 x", Some((1, LineFault::Form))),
    ("task A! 0 10", Some((1, LineFault::Name))),
    ("task A 5 10 r-", Some((1, LineFault::Name))),
    ("task 0.a_Z 5 10 9", None),
    ("task A 1 10\ntask A! 1 10", Some((2, LineFault::Name))),
    ("task A 1 10\ntask A 0 10", Some((2, LineFault::Twice))),
    ("task A 1 10\ntask a 1 10 A", None),
    ("task A 0 0", Some((1, LineFault::Cost))),
    ("task A 1 0", Some((1, LineFault::Period))),
    ("task A 1000000 1000000", None),
    ("task A 1000001 1", Some((1, LineFault::Cost))),
    ("task A 1 1000001", Some((1, LineFault::Period))),
    ("task A 18446744073709551617 1", Some((1, LineFault::Cost))),
    (
        "task A 1 18446744073709551617",
        Some((1, LineFault::Period)),
    ),
    ("task A 000000000000000000000001 01", None),
];

/// Checks the first fault of each text.
fn judge_texts(
    rt: &(impl Abort + AllocGlobal),
    rows: &[(&str, Option<(u32, LineFault)>)],
) -> Result<(), Fail> {
    for (text, expected) in rows {
        assert_eq!(rt; fault(rt.alloc(), text.as_bytes())?, *expected, "at {text}");
    }
    Ok(())
}

#[test]
fn the_first_fault_is_told(rt: HostRuntime) -> Result<(), Fail> {
    judge_texts(&rt, TEXTS)
}

#[test]
fn names_have_at_most_65_bytes(rt: HostRuntime) -> Result<(), Fail> {
    let alloc = rt.alloc();
    for (len, expected) in [(1, None), (65, None), (66, Some((1, LineFault::Name)))] {
        let mut task = Vec::from_slice(alloc, b"task ")?;
        let mut resource = Vec::from_slice(alloc, b"task A 1 1 ")?;
        for _ in 0..len {
            task.push(b'x')?;
            resource.push(b'x')?;
        }
        task.extend_from_slice(b" 1 1")?;
        assert_eq!(rt; fault(alloc, &task)?, expected, "at {len}");
        assert_eq!(rt; fault(alloc, &resource)?, expected, "at {len}");
    }
    Ok(())
}

#[test]
fn a_set_has_at_most_64_tasks(rt: HostRuntime) -> Result<(), Fail> {
    let alloc = rt.alloc();
    let mut text = Vec::new(alloc);
    let mut tasks = Vec::new(alloc);
    for n in 0..64u8 {
        text.extend_from_slice(&[b't', b'a', b's', b'k', b' ', b'A' + n % 8, b'A' + n / 8])?;
        text.extend_from_slice(b" 1 1\n")?;
        tasks.push(Task {
            cost: 1,
            period: 1,
            resource: 0,
        })?;
    }
    assert_eq!(rt; fault(alloc, &text)?, None);
    text.extend_from_slice(b"task X 1 1")?;
    assert_eq!(rt; fault(alloc, &text)?, Some((65, LineFault::Many)));
    let more = tasks.clone()?;
    assert!(rt; TaskSet::new(tasks).is_ok());
    let mut tasks = more;
    tasks.push(Task {
        cost: 1,
        period: 1,
        resource: 0,
    })?;
    match TaskSet::new(tasks) {
        Ok(_) => Err("65 tasks are a set".into()),
        Err(list) => {
            assert_eq!(rt; list.len(), 65);
            Ok(())
        }
    }
}

/// Costs and periods, and whether a task of them alone is a set.
const RANGES: &[(u64, u64, bool)] = &[
    (0, 1, false),
    (1, 0, false),
    (1, 1, true),
    (1_000_000, 1_000_000, true),
    (1_000_001, 1, false),
    (1, 1_000_001, false),
];

/// Checks whether each task alone is a set.
fn judge_ranges(rt: &(impl Abort + AllocGlobal), rows: &[(u64, u64, bool)]) -> Result<(), Fail> {
    for (cost, period, expected) in rows {
        let mut tasks = Vec::new(rt.alloc());
        tasks.push(Task {
            cost: *cost,
            period: *period,
            resource: 1,
        })?;
        assert_eq!(rt;
            TaskSet::new(tasks).is_ok(),
            *expected,
            "at {cost} {period}"
        );
    }
    Ok(())
}

#[test]
fn tasks_are_in_range(rt: HostRuntime) -> Result<(), Fail> {
    judge_ranges(&rt, RANGES)
}

/// The line of a set's task, by its number from 1.
fn task_text(named: &NamedSet, number: u32) -> Line
    requires first { 1 ≤ number }
    requires last { number ≤ length named.now.tasks }
{
    let task = named.set().task(number);
    let label = named.label(number);
    let mut line = Line::new();
    if task.resource == 0 {
        put_task(&mut line, label, task, b"");
    } else {
        put_task(&mut line, label, task, named.group(task.resource));
    }
    line
}

/// The lines of a set's tasks.
fn set_text(alloc: Global, named: &NamedSet) -> Result<Text, AllocError> {
    let mut text = Text::new(alloc);
    for n in 0..named.set().len() {
        text.put(task_text(named, n + 1).bytes())?;
        text.put(b"\n")?;
    }
    Ok(text)
}

#[test]
fn sets_are_read(rt: HostRuntime) -> Result<(), Fail> {
    let text = b"task A 1 9 r\n\ntask B.o 5 20 s_2\r\n# task\n task C 2 6 r\ntask D 1 7";
    let named = match read_set(rt.alloc(), text.as_slice()) {
        Ok(named) => named,
        Err(_) => return Err("no set".into()),
    };
    assert_eq!(rt;
        set_text(rt.alloc(), &named)?.as_slice(),
        b"task A 1 9 r\ntask B.o 5 20 s_2\ntask C 2 6 r\ntask D 1 7\n".as_slice()
    );
    for (resource, least) in [(0, None), (1, Some(6)), (2, Some(20)), (3, None)] {
        assert_eq!(rt; named.set().floor(resource), least, "at {resource}");
    }
    Ok(())
}
