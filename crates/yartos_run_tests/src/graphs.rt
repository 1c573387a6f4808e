//! Runs and stops of graphs: which graphs are refused, and how one graph may be written.
use std::test::Fail;
use yartos::Status;
use yartos_rows::{
    BUSY, BUSY_TEXT, COSTLY, CROWDED, MANY_SENDS, Row, TIGHT, TIGHT_TEXT, UNDECLARED, WIDE, judge,
};

const RUN: &[&str] = &["run", "g", "t"];

const STOP: &[&str] = &["stop", "g", "t", "0"];

/// Graphs that are refused, or whose tasks don't fit, whatever the trace holds.
const REFUSED: &[Row] = &[
    (
        RUN,
        &[("g", UNDECLARED), ("t", "")],
        Status::Graph,
        "graph name 1 17 unknown\n",
    ),
    (
        STOP,
        &[("g", UNDECLARED), ("t", "")],
        Status::Graph,
        "graph name 1 17 unknown\n",
    ),
    (
        RUN,
        &[("g", COSTLY), ("t", "")],
        Status::Graph,
        "graph cost p.a 3003003\n",
    ),
    (
        STOP,
        &[("g", COSTLY), ("t", "")],
        Status::Graph,
        "graph cost p.a 3003003\n",
    ),
    (
        RUN,
        &[("g", MANY_SENDS), ("t", "")],
        Status::Graph,
        "graph sends p.a o\n",
    ),
    (
        RUN,
        &[("g", CROWDED), ("t", "")],
        Status::Graph,
        "graph rate p.a.o zero\n",
    ),
    (RUN, &[("g", BUSY), ("t", "")], Status::Overload, BUSY_TEXT),
    (STOP, &[("g", BUSY), ("t", "")], Status::Overload, BUSY_TEXT),
    (
        RUN,
        &[("g", TIGHT), ("t", "")],
        Status::Overload,
        TIGHT_TEXT,
    ),
    (
        STOP,
        &[("g", TIGHT), ("t", "")],
        Status::Overload,
        TIGHT_TEXT,
    ),
    (
        RUN,
        &[("g", WIDE), ("t", "")],
        Status::Graph,
        "graph hyperperiod p.f\n",
    ),
    (
        STOP,
        &[("g", WIDE), ("t", "no trace")],
        Status::Graph,
        "graph hyperperiod p.f\n",
    ),
    (
        STOP,
        &[("g", CROWDED), ("t", "no trace")],
        Status::Graph,
        "graph rate p.a.o zero\n",
    ),
];

#[test]
fn a_graph_is_judged_before_its_run(rt: HostRuntime) -> Result<(), Fail> {
    judge(rt.alloc(), REFUSED)?;
    Ok(())
}

/// Graphs whose handlers call operators: they wait as soon as their grammar is judged, whatever the names and the trace are.
const CALLING: &[Row] = &[
    (
        RUN,
        &[
            (
                "g",
                "input i(1) period 10 process p { port a from i (v) { let x = greater(v, 3) } }",
            ),
            ("t", "0 i 1\n"),
        ],
        Status::NotYet,
        "notyet\n",
    ),
    (
        STOP,
        &[
            (
                "g",
                "input i(1) period 10 process p { port a from i (v) { let x = greater(v, 3) } }",
            ),
            ("t", "0 i 1\n"),
        ],
        Status::NotYet,
        "notyet\n",
    ),
    (
        RUN,
        &[
            ("g", "process p { port a from i () { x = abs(y) } }"),
            ("t", "no trace"),
        ],
        Status::NotYet,
        "notyet\n",
    ),
    (
        STOP,
        &[
            ("g", "process p { port a from i () { x = abs() } }"),
            ("t", ""),
        ],
        Status::Graph,
        "graph syntax 1 40\n",
    ),
];

#[test]
fn graphs_that_call_operators_wait(rt: HostRuntime) -> Result<(), Fail> {
    judge(rt.alloc(), CALLING)?;
    Ok(())
}

/// A graph with other white space, comments and leading zeros; the same with brackets, with `every 1`, with its parts in other orders, and
/// with parts more.
const WRITTEN_SO: &[Row] = &[
    (
        RUN,
        &[
            (
                "g",
                "input tick ( 1 ) period 010 # ten\noutput led from p . a . o\nprocess p { port a from tick(v)out o(01){send o(v+01)}}",
            ),
            ("t", "0 tick 7\n"),
        ],
        Status::Done,
        "run 0 5 p.a 1\nout 10 led 8\nend 10\n",
    ),
    (
        RUN,
        &[
            (
                "g",
                "input tick(1) period 10 output led from p.a.o process p { port a from tick (v) out o(1) { send o ((v) + 1) } }",
            ),
            ("t", "0 tick 7\n"),
        ],
        Status::Done,
        "run 0 5 p.a 1\nout 10 led 8\nend 10\n",
    ),
    (
        RUN,
        &[
            (
                "g",
                "input tick(1) period 10 output led from p.a.o process p { port a from tick (v) out o(1) { send o ((v + 1)) } }",
            ),
            ("t", "0 tick 7\n"),
        ],
        Status::Done,
        "run 0 5 p.a 1\nout 10 led 8\nend 10\n",
    ),
    (
        RUN,
        &[
            (
                "g",
                "input tick(1) period 10 output led from p.a.o process p { port a from tick (v) out o(1) every 1 { send o (v + 1) } }",
            ),
            ("t", "0 tick 7\n"),
        ],
        Status::Done,
        "run 0 5 p.a 1\nout 10 led 8\nend 10\n",
    ),
    (
        RUN,
        &[
            (
                "g",
                "output led from p.a.o input tick(1) period 10 process p { port a from tick (v) out o(1) { send o (v + 1) } }",
            ),
            ("t", "0 tick 7\n"),
        ],
        Status::Done,
        "run 0 5 p.a 1\nout 10 led 8\nend 10\n",
    ),
    (
        RUN,
        &[
            (
                "g",
                "process p { port a from tick (v) out o(1) { send o (v + 1) } } input tick(1) period 10 output led from p.a.o",
            ),
            ("t", "0 tick 7\n"),
        ],
        Status::Done,
        "run 0 5 p.a 1\nout 10 led 8\nend 10\n",
    ),
    (
        RUN,
        &[
            (
                "g",
                "input tick(1) period 10 output led from p.a.o process p { port a from tick (v) out o(1) { send o (v + 1) } } resource r process q in r { var s = 1 }",
            ),
            ("t", "0 tick 7\n"),
        ],
        Status::Done,
        "run 0 5 p.a 1\nout 10 led 8\nend 10\n",
    ),
];

#[test]
fn a_graph_is_run_however_it_is_written(rt: HostRuntime) -> Result<(), Fail> {
    judge(rt.alloc(), WRITTEN_SO)?;
    Ok(())
}
