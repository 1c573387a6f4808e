//! Sets of tasks, and whether they fit.
use std::alloc::{AllocError, Global};
use std::test::Fail;
use yartos::Status;
use yartos_rows::{Row, Wrong, expect, judge};
use yt_base::Line;

const SET: &[&str] = &["set", "s"];

/// Sets whose text is in order.
const SETS: &[Row] = &[
    (SET, &[("s", "")], Status::Done, "accepted 0 0/1\n"),
    (
        SET,
        &[("s", "# nothing\n\n")],
        Status::Done,
        "accepted 0 0/1\n",
    ),
    (
        SET,
        &[("s", "task A 5 10\ntask B 10 20\n")],
        Status::Done,
        "accepted 2 20/20\n",
    ),
    (
        SET,
        &[("s", "task A 5 10\ntask B 11 20\n")],
        Status::Overload,
        "overload load 21/20\narrive A 0 10 2 5\narrive B 0 20 1 11\nhorizon 20\n",
    ),
    (
        SET,
        &[("s", "task A 1 4 r\ntask B 5 20\n")],
        Status::Done,
        "accepted 2 10/20\n",
    ),
    (
        SET,
        &[("s", "task A 1 4 r\ntask B 4 20 r\n")],
        Status::Done,
        "accepted 2 9/20\n",
    ),
    (
        SET,
        &[("s", "task A 1 4 r\ntask B 5 20 r\n")],
        Status::Overload,
        "overload interval B 5 6\narrive A 1 4 1 1\narrive B 0 20 1 5\nhorizon 5\n",
    ),
    (
        SET,
        &[("s", "task A 2 5\ntask K 1 8 r\ntask B 4 40 r\n")],
        Status::Done,
        "accepted 3 25/40\n",
    ),
    (
        SET,
        &[("s", "task A 3 6\ntask K 1 5 r\ntask B 5 30 r\n")],
        Status::Overload,
        "overload interval B 7 9\narrive A 1 6 1 3\narrive K 1 5 1 1\narrive B 0 30 1 5\nhorizon 7\n",
    ),
    (
        SET,
        &[(
            "s",
            "task A 1 2\ntask K 1 100000 r\ntask B 50001 1000000 r\n",
        )],
        Status::Overload,
        "overload interval B 100001 100002\narrive A 1 2 50000 1\narrive K 1 100000 1 1\narrive B 0 1000000 1 50001\nhorizon 100001\n",
    ),
    (
        SET,
        &[("s", "task A 1 4 r\ntask C 1 30\ntask B 5 20 r\n")],
        Status::Overload,
        "overload interval B 5 6\narrive A 1 4 1 1\narrive B 0 20 1 5\nhorizon 5\n",
    ),
    (
        SET,
        &[("s", "task A 4 4 r\ntask B 1 6 r\n")],
        Status::Overload,
        "overload load 14/12\narrive A 0 4 3 4\narrive B 0 6 2 1\nhorizon 12\n",
    ),
    (
        SET,
        &[(
            "s",
            "task A 1 999995\ntask B 1 999996\ntask C 1 999997\ntask D 1 999998\ntask E 1 999999\ntask F 1 1000000\n",
        )],
        Status::Graph,
        "set hyperperiod F\n",
    ),
    (
        SET,
        &[(
            "s",
            "task A 999995 999995\ntask B 1 999996\ntask C 1 999997\ntask D 1 999998\ntask E 1 999999\ntask F 1 1000000\ntask G 1 1\n",
        )],
        Status::Graph,
        "set hyperperiod F\n",
    ),
    (
        SET,
        &[("s", "task A 1 1000000\n")],
        Status::Done,
        "accepted 1 1/1000000\n",
    ),
    (
        SET,
        &[("s", "task A 1000000 1000000\n")],
        Status::Done,
        "accepted 1 1000000/1000000\n",
    ),
    (
        SET,
        &[(
            "s",
            "task aaaaaaaaaabbbbbbbbbbaaaaaaaaaabbbbbbbbbbaaaaaaaaaabbbbbbbbbb12.4_ 5 10\n",
        )],
        Status::Done,
        "accepted 1 5/10\n",
    ),
    (
        SET,
        &[(
            "s",
            "task A 5 10 aaaaaaaaaabbbbbbbbbbaaaaaaaaaabbbbbbbbbbaaaaaaaaaabbbbbbbbbb12.4_\n",
        )],
        Status::Done,
        "accepted 1 5/10\n",
    ),
    (
        SET,
        &[("s", "task A 005 010\r\n")],
        Status::Done,
        "accepted 1 5/10\n",
    ),
    (
        SET,
        &[("s", " \ttask\tA  5 10 ")],
        Status::Done,
        "accepted 1 5/10\n",
    ),
    (
        SET,
        &[("s", "task A 1000000 999999\ntask B 1 1000000\n")],
        Status::Overload,
        "overload load 1000000999999/999999000000\narrive A 0 999999 1000000 1000000\narrive B 0 1000000 999999 1\nhorizon 999999000000\n",
    ),
];

#[test]
fn sets_are_judged(rt: HostRuntime) -> Result<(), Fail> {
    judge(rt.alloc(), SETS)?;
    Ok(())
}

/// Sets with a line at fault.
const FAULTS: &[Row] = &[
    (
        SET,
        &[("s", "task A 1 1000001\n")],
        Status::Graph,
        "set 1 period\n",
    ),
    (
        SET,
        &[("s", "task A 1000001 1000000\n")],
        Status::Graph,
        "set 1 cost\n",
    ),
    (
        SET,
        &[("s", "task A 0 10\n")],
        Status::Graph,
        "set 1 cost\n",
    ),
    (
        SET,
        &[("s", "task A 1 0\n")],
        Status::Graph,
        "set 1 period\n",
    ),
    (SET, &[("s", "task A 0 0\n")], Status::Graph, "set 1 cost\n"),
    (
        SET,
        &[("s", "task A 1 100000000000000000000000000000000000000000\n")],
        Status::Graph,
        "set 1 period\n",
    ),
    (
        SET,
        &[("s", "task A 1 10\ntask A 1 10\n")],
        Status::Graph,
        "set 2 twice\n",
    ),
    (
        SET,
        &[("s", "task A 1 10\ntask A 0 10\n")],
        Status::Graph,
        "set 2 twice\n",
    ),
    (
        SET,
        &[("s", "task A 1 10\n# B\n\ntask A 1 10")],
        Status::Graph,
        "set 4 twice\n",
    ),
    (SET, &[("s", "task A 5\n")], Status::Graph, "set 1 form\n"),
    (
        SET,
        &[("s", "task A 5 10 r s\n")],
        Status::Graph,
        "set 1 form\n",
    ),
    (SET, &[("s", "job A 5 10\n")], Status::Graph, "set 1 form\n"),
    (
        SET,
        &[("s", "task A -5 10\n")],
        Status::Graph,
        "set 1 form\n",
    ),
    (
        SET,
        &[("s", "task A! 5 x\n")],
        Status::Graph,
        "set 1 form\n",
    ),
    (
        SET,
        &[("s", "task A! 5 10\n")],
        Status::Graph,
        "set 1 name\n",
    ),
    (
        SET,
        &[("s", "task A 0 10 r!\n")],
        Status::Graph,
        "set 1 name\n",
    ),
    (
        SET,
        &[("s", "task # 5 10\n")],
        Status::Graph,
        "set 1 name\n",
    ),
    (
        SET,
        &[(
            "s",
            "task aaaaaaaaaabbbbbbbbbbaaaaaaaaaabbbbbbbbbbaaaaaaaaaabbbbbbbbbb12.4_6 5 10\n",
        )],
        Status::Graph,
        "set 1 name\n",
    ),
    (
        SET,
        &[(
            "s",
            "task A 5 10 aaaaaaaaaabbbbbbbbbbaaaaaaaaaabbbbbbbbbbaaaaaaaaaabbbbbbbbbb12.4_6\n",
        )],
        Status::Graph,
        "set 1 name\n",
    ),
];

#[test]
fn the_first_line_at_fault_is_told(rt: HostRuntime) -> Result<(), Fail> {
    judge(rt.alloc(), FAULTS)?;
    Ok(())
}

/// A set of so many tasks of cost 1 and period 100.
fn many_tasks(alloc: Global, count: u64) -> Result<Vec<u8>, AllocError> {
    let mut text = Vec::new(alloc);
    for n in 0..count {
        let mut digits = Line::new();
        digits.put_u64(n);
        text.extend_from_slice(b"task t")?;
        text.extend_from_slice(digits.bytes())?;
        text.extend_from_slice(b" 1 100\n")?;
    }
    Ok(text)
}

/// Checks what `set` says of a set of so many tasks.
fn check(alloc: Global, count: u64, status: Status, text: &str) -> Result<(), Wrong> {
    let set = many_tasks(alloc, count)?;
    let files = vec![in alloc; (String::from_str(alloc, "s")?, set)]?;
    expect(alloc, 0, SET, files, status, text)
}

#[test]
fn a_set_has_64_tasks_at_most(rt: HostRuntime) -> Result<(), Fail> {
    check(rt.alloc(), 64, Status::Done, "accepted 64 64/100\n")?;
    check(rt.alloc(), 65, Status::Graph, "set 65 many\n")?;
    Ok(())
}
