//! Replays of the arrivals that show that sets of tasks don't fit.
use std::test::Fail;
use yartos::Status;
use yartos_rows::{Row, judge};

const REPLAY: &[&str] = &["replay", "s"];

/// Sets, and what is said of their replays.
const REPLAYS: &[Row] = &[
    (REPLAY, &[("s", "")], Status::Done, "accepted 0 0/1\n"),
    (
        REPLAY,
        &[("s", "task A 5 10\ntask B 10 20\n")],
        Status::Done,
        "accepted 2 20/20\n",
    ),
    (
        REPLAY,
        &[("s", "task A 5 10\ntask B 11 20\n")],
        Status::Missed,
        "run 0 5 A 1\nrun 5 16 B 1\nrun 16 20 A 2\nmiss A 2 20\n",
    ),
    (
        REPLAY,
        &[("s", "task A 1 4 r\ntask B 5 20 r\n")],
        Status::Missed,
        "run 0 5 B 1\nmiss A 1 5\n",
    ),
    (
        REPLAY,
        &[("s", "task A 1 4 r\ntask B 4 20 r\n")],
        Status::Done,
        "accepted 2 9/20\n",
    ),
    (
        REPLAY,
        &[("s", "task A 3 6\ntask K 1 5 r\ntask B 5 30 r\n")],
        Status::Missed,
        "run 0 5 B 1\nrun 5 6 K 1\nrun 6 7 A 1\nmiss A 1 7\n",
    ),
    (
        REPLAY,
        &[("s", "task A 1000000 999999\ntask B 1 1000000\n")],
        Status::Long,
        "long replay 999999000000 1999999\n",
    ),
    (
        REPLAY,
        &[("s", "task A 1 1\ntask B 1 20000\n")],
        Status::Long,
        "long replay 20000 20001\n",
    ),
    (
        REPLAY,
        &[("s", "task A 1000000 1000000\ntask B 1 640000\n")],
        Status::Long,
        "long replay 16000000 41\n",
    ),
    (
        REPLAY,
        &[(
            "s",
            "task A 1 2\ntask K 1 100000 r\ntask B 50001 1000000 r\n",
        )],
        Status::Long,
        "long replay 100001 50002\n",
    ),
    (
        REPLAY,
        &[("s", "task A 1 1000001\n")],
        Status::Graph,
        "set 1 period\n",
    ),
    (
        REPLAY,
        &[(
            "s",
            "task A 1 999995\ntask B 1 999996\ntask C 1 999997\ntask D 1 999998\ntask E 1 999999\ntask F 1 1000000\n",
        )],
        Status::Graph,
        "set hyperperiod F\n",
    ),
];

#[test]
fn what_shows_that_a_set_does_not_fit_is_played(rt: HostRuntime) -> Result<(), Fail> {
    judge(rt.alloc(), REPLAYS)?;
    Ok(())
}
