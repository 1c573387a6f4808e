//! Stops: what is printed of variables in the middle of runs.
use crate::graph_texts::{LONGEST, LOOPING, NO_PORTS, SWAP, TWO_COUNTERS};
use std::alloc::Global;
use std::test::Fail;
use yartos::Status;
use yartos_rows::{BLINK, COUNTER, Wrong, expect, held};

/// A graph, a trace, and what is printed of its run at some ticks.
type Stops = (
    &'static str,
    &'static str,
    &'static [(&'static str, &'static str)],
);

/// Checks each of these stops of a run.
fn judge_ticks(
    alloc: Global,
    graph: &str,
    trace: &str,
    ticks: &[(&str, &str)],
) -> Result<(), Wrong> {
    for (number, (tick, text)) in ticks.iter().enumerate() {
        let files = held(alloc, &[("g", graph), ("t", trace)])?;
        let words = &["stop", "g", "t", *tick];
        expect(alloc, number, words, files, Status::Done, text)?;
    }
    Ok(())
}

/// Checks the stops of each run.
fn judge_stops(alloc: Global, stops: &[Stops]) -> Result<(), Wrong> {
    for (graph, trace, ticks) in stops {
        judge_ticks(alloc, graph, trace, ticks)?;
    }
    Ok(())
}

/// What variables are at ticks.
const STOPS: &[Stops] = &[
    // In the middle of a job that was interrupted, and of one that ends: a write shows in the tick after its own.
    (
        COUNTER,
        "0 a\n0 c 1\n3 b\n",
        &[
            ("0", "var p.s 1\nat 0\n"),
            ("6", "var p.s 1\nat 6\n"),
            ("7", "var p.s 2\nat 7\n"),
            ("15", "var p.s 2\nat 15\n"),
            ("16", "var p.s 4\nat 16\n"),
            ("17", "var p.s 4\nat 17\n"),
            ("23", "var p.s 4\nat 23\n"),
            ("99999999", "var p.s 4\nat 99999999\n"),
        ],
    ),
    // Two writes of one job, and an alarm between them.
    (
        SWAP,
        "0 i 1\n3 alarm\n60 i 2\n",
        &[
            ("0", "var p.old -1\nvar p.new -2\nat 0\n"),
            ("3", "var p.old -1\nvar p.new -2\nat 3\n"),
            ("4", "var p.old -1\nvar p.new -2\nat 4\n"),
            ("5", "var p.old -1\nvar p.new -2\nat 5\n"),
            ("6", "var p.old -1\nvar p.new 1\nat 6\n"),
            ("7", "var p.old -1\nvar p.new 1\nat 7\n"),
            ("8", "var p.old -2\nvar p.new 1\nat 8\n"),
            ("00000009", "var p.old -2\nvar p.new 1\nat 9\n"),
            ("63", "var p.old -2\nvar p.new 1\nat 63\n"),
            ("64", "var p.old -2\nvar p.new 2\nat 64\n"),
            ("66", "var p.old 1\nvar p.new 2\nat 66\n"),
            ("70", "var p.old 1\nvar p.new 2\nat 70\n"),
        ],
    ),
    // Turn by turn of a loop.
    (
        LOOPING,
        "0 work 4\n2 alarm 1\n5 double\n14 alarm 2\n26 alarm 3\n",
        &[
            ("8", "var p.s 0\nat 8\n"),
            ("9", "var p.s 1\nat 9\n"),
            ("13", "var p.s 1\nat 13\n"),
            ("14", "var p.s 2\nat 14\n"),
            ("15", "var p.s 2\nat 15\n"),
            ("19", "var p.s 2\nat 19\n"),
            ("21", "var p.s 2\nat 21\n"),
            ("22", "var p.s 3\nat 22\n"),
            ("26", "var p.s 3\nat 26\n"),
            ("29", "var p.s 3\nat 29\n"),
            ("32", "var p.s 4\nat 32\n"),
            ("35", "var p.s 4\nat 35\n"),
            ("36", "var p.s 8\nat 36\n"),
        ],
    ),
    // Two processes, one of which has no port.
    (
        TWO_COUNTERS,
        "7 i\n17 i\n",
        &[
            (
                "0",
                "var still.n -9223372036854775807\nvar still.m 0\nvar p.n 3\nat 0\n",
            ),
            (
                "10",
                "var still.n -9223372036854775807\nvar still.m 0\nvar p.n 3\nat 10\n",
            ),
            (
                "11",
                "var still.n -9223372036854775807\nvar still.m 0\nvar p.n 4\nat 11\n",
            ),
            (
                "21",
                "var still.n -9223372036854775807\nvar still.m 0\nvar p.n 5\nat 21\n",
            ),
            (
                "22",
                "var still.n -9223372036854775807\nvar still.m 0\nvar p.n 5\nat 22\n",
            ),
            (
                "4000000",
                "var still.n -9223372036854775807\nvar still.m 0\nvar p.n 5\nat 4000000\n",
            ),
        ],
    ),
    // No port.
    (
        NO_PORTS,
        "0 a\n",
        &[("0", "var p.s -7\nat 0\n"), ("1", "var p.s -7\nat 1\n")],
    ),
    // No variable.
    (
        BLINK,
        "0 tick 7\n",
        &[("0", "at 0\n"), ("3", "at 3\n"), ("10", "at 10\n")],
    ),
    // Before, at and after two jobs that lie far apart.
    (
        LONGEST,
        "0 i\n3999999 i\n",
        &[
            ("3", "var p.n 0\nat 3\n"),
            ("4", "var p.n 1\nat 4\n"),
            ("2000000", "var p.n 1\nat 2000000\n"),
            ("4000002", "var p.n 1\nat 4000002\n"),
            ("4000003", "var p.n 2\nat 4000003\n"),
            ("5000000", "var p.n 2\nat 5000000\n"),
        ],
    ),
];

#[test]
fn variables_are_told_at_ticks(rt: HostRuntime) -> Result<(), Fail> {
    judge_stops(rt.alloc(), STOPS)?;
    Ok(())
}
