//! Plays of plans for sets of tasks.
use std::test::Fail;
use yartos::Status;
use yartos_rows::{Row, judge};

const PLAY: &[&str] = &["play", "s", "p"];

/// A task alone.
const ONE: &str = "task A 5 10\n";

/// Two tasks without resources, of which one is much more urgent.
const TWO: &str = "task A 2 5\ntask C 20 100\n";

/// An urgent task, and two that share a resource.
const SHARED: &str = "task A 2 5\ntask K 1 8 r\ntask B 4 40 r\n";

/// Tasks that ask for more than there is.
const BUSY: &str = "task A 5 10\ntask B 11 20\n";

/// A task that leaves the other user of its resource too little room.
const BLOCKING: &str = "task A 1 4 r\ntask B 5 20 r\n";

/// Sets, plans, and what is said of their plays.
const PLAYS: &[Row] = &[
    (PLAY, &[("s", ONE), ("p", "")], Status::Done, "end 0\n"),
    (
        PLAY,
        &[("s", ONE), ("p", "0 A 5\n10 A 5\n")],
        Status::Done,
        "run 0 5 A 1\nrun 10 15 A 2\nend 15\n",
    ),
    (
        PLAY,
        &[("s", TWO), ("p", "0 C 20\n1 A 2\n")],
        Status::Done,
        "run 0 1 C 1\nrun 1 3 A 1\nrun 3 22 C 1\nend 22\n",
    ),
    (
        PLAY,
        &[("s", SHARED), ("p", "0 B 4\n1 A 2\n1 K 1\n6 A 2\n")],
        Status::Done,
        "run 0 1 B 1\nrun 1 3 A 1\nrun 3 6 B 1\nrun 6 7 K 1\nrun 7 9 A 2\nend 9\n",
    ),
    (
        PLAY,
        &[("s", BUSY), ("p", "0 A 5\n0 B 11\n10 A 5\n")],
        Status::Missed,
        "run 0 5 A 1\nrun 5 16 B 1\nrun 16 20 A 2\nmiss A 2 20\n",
    ),
    (
        PLAY,
        &[("s", BUSY), ("p", "0 A 5\n0 B 10\n10 A 5\n")],
        Status::Done,
        "run 0 5 A 1\nrun 5 15 B 1\nrun 15 20 A 2\nend 20\n",
    ),
    (
        PLAY,
        &[("s", BLOCKING), ("p", "0 B 5\n1 A 1\n")],
        Status::Missed,
        "run 0 5 B 1\nmiss A 1 5\n",
    ),
    (
        PLAY,
        &[("s", BLOCKING), ("p", "0 A 1\n0 B 5\n4 A 1\n")],
        Status::Done,
        "run 0 1 A 1\nrun 1 6 B 1\nrun 6 7 A 2\nend 7\n",
    ),
    (
        PLAY,
        &[("s", ONE), ("p", "0 A\n")],
        Status::Trace,
        "plan 1 form\n",
    ),
    (
        PLAY,
        &[("s", ONE), ("p", "# none\n0 B 1\n")],
        Status::Trace,
        "plan 2 unknown\n",
    ),
    (
        PLAY,
        &[("s", ONE), ("p", "0 A 6\n")],
        Status::Trace,
        "plan 1 cost\n",
    ),
    (
        PLAY,
        &[("s", ONE), ("p", "0 A 0\n")],
        Status::Trace,
        "plan 1 cost\n",
    ),
    (
        PLAY,
        &[("s", ONE), ("p", "4000000 A 1\n")],
        Status::Done,
        "run 4000000 4000001 A 1\nend 4000001\n",
    ),
    (
        PLAY,
        &[("s", ONE), ("p", "4000001 A 1\n")],
        Status::Trace,
        "plan 1 late\n",
    ),
    (
        PLAY,
        &[("s", TWO), ("p", "7 A 1\n6 C 1\n")],
        Status::Trace,
        "plan 2 order\n",
    ),
    (
        PLAY,
        &[("s", ONE), ("p", "0 A 5\n9 A 5\n")],
        Status::Trace,
        "plan 2 soon 10\n",
    ),
    (
        PLAY,
        &[("s", ""), ("p", "0 A 1\n")],
        Status::Trace,
        "plan 1 unknown\n",
    ),
    (PLAY, &[("s", ""), ("p", "")], Status::Done, "end 0\n"),
    (
        PLAY,
        &[("s", "task A 0 10\n"), ("p", "x")],
        Status::Graph,
        "set 1 cost\n",
    ),
];

#[test]
fn plans_are_played(rt: HostRuntime) -> Result<(), Fail> {
    judge(rt.alloc(), PLAYS)?;
    Ok(())
}
