//! Traces: how their texts are read, and which are refused.
use crate::graph_texts::{INPUTS, MOST};
use std::test::Fail;
use yartos::Status;
use yartos_rows::{BLINK, FAST, Row, judge};

const RUN: &[&str] = &["run", "g", "t"];

const STOP: &[&str] = &["stop", "g", "t", "0"];

/// Traces with other white space, without a last line feed, with comments and with leading zeros; at the edges of times and values; and
/// of several inputs at one tick.
const TEXTS: &[Row] = &[
    (
        RUN,
        &[("g", BLINK), ("t", "0 tick 7")],
        Status::Done,
        "run 0 5 p.a 1\n\
        out 10 led 8\n\
        end 10\n",
    ),
    (
        RUN,
        &[("g", BLINK), ("t", "0 tick 7\n\n")],
        Status::Done,
        "run 0 5 p.a 1\n\
        out 10 led 8\n\
        end 10\n",
    ),
    (
        RUN,
        &[("g", BLINK), ("t", "\n\n  \t\r\n0 tick 7\n")],
        Status::Done,
        "run 0 5 p.a 1\n\
        out 10 led 8\n\
        end 10\n",
    ),
    (
        RUN,
        &[("g", BLINK), ("t", "0 tick 7\r\n")],
        Status::Done,
        "run 0 5 p.a 1\n\
        out 10 led 8\n\
        end 10\n",
    ),
    (
        RUN,
        &[("g", BLINK), ("t", "0  tick\t 7\n")],
        Status::Done,
        "run 0 5 p.a 1\n\
        out 10 led 8\n\
        end 10\n",
    ),
    (
        RUN,
        &[("g", BLINK), ("t", "\t 0 tick 7 \t\n")],
        Status::Done,
        "run 0 5 p.a 1\n\
        out 10 led 8\n\
        end 10\n",
    ),
    (
        RUN,
        &[("g", BLINK), ("t", "00 tick 07\n")],
        Status::Done,
        "run 0 5 p.a 1\n\
        out 10 led 8\n\
        end 10\n",
    ),
    (
        RUN,
        &[("g", BLINK), ("t", "# the first\n0 tick 7\n #10 tick 8\n")],
        Status::Done,
        "run 0 5 p.a 1\n\
        out 10 led 8\n\
        end 10\n",
    ),
    (
        RUN,
        &[("g", BLINK), ("t", "0 tick -0\n")],
        Status::Done,
        "run 0 5 p.a 1\n\
        out 10 led 1\n\
        end 10\n",
    ),
    (RUN, &[("g", BLINK), ("t", "\n")], Status::Done, "end 0\n"),
    (RUN, &[("g", BLINK), ("t", "#")], Status::Done, "end 0\n"),
    (
        RUN,
        &[("g", BLINK), ("t", "10 tick -5\n20 tick 0")],
        Status::Done,
        "run 10 15 p.a 1\n\
        out 20 led -4\n\
        run 20 25 p.a 2\n\
        out 30 led 1\n\
        end 30\n",
    ),
    (
        RUN,
        &[("g", BLINK), ("t", "0 tick 7\n10 tick 8\n25 tick 9\n")],
        Status::Done,
        "run 0 5 p.a 1\n\
        out 10 led 8\n\
        run 10 15 p.a 2\n\
        out 20 led 9\n\
        run 25 30 p.a 3\n\
        out 35 led 10\n\
        end 35\n",
    ),
    (
        RUN,
        &[("g", BLINK), ("t", "4000000 tick 7\n")],
        Status::Done,
        "run 4000000 4000005 p.a 1\n\
        out 4000010 led 8\n\
        end 4000010\n",
    ),
    (
        RUN,
        &[("g", BLINK), ("t", "0 tick 9223372036854775807\n")],
        Status::Done,
        "run 0 5 p.a 1\n\
        out 10 led -9223372036854775808\n\
        end 10\n",
    ),
    (
        RUN,
        &[("g", BLINK), ("t", "0 tick -9223372036854775808\n")],
        Status::Done,
        "run 0 5 p.a 1\n\
        out 10 led -9223372036854775807\n\
        end 10\n",
    ),
    (
        RUN,
        &[
            ("g", INPUTS),
            ("t", "0 none\n0 two 1 -2\n0 one 3\n7 one 4\n10 none\n"),
        ],
        Status::Done,
        "run 0 4 p.a 1\n\
        out 1000000 o -2 1\n\
        end 1000000\n",
    ),
];

#[test]
fn texts_of_traces_are_read(rt: HostRuntime) -> Result<(), Fail> {
    judge(rt.alloc(), TEXTS)?;
    Ok(())
}

/// Traces that are refused: the first line at fault, by its first fault.
const FAULTS: &[Row] = &[
    (
        RUN,
        &[("g", BLINK), ("t", "tick 7\n")],
        Status::Trace,
        "trace 1 form\n",
    ),
    (
        RUN,
        &[("g", BLINK), ("t", "0\n")],
        Status::Trace,
        "trace 1 form\n",
    ),
    (
        RUN,
        &[("g", BLINK), ("t", "x tick 7\n")],
        Status::Trace,
        "trace 1 form\n",
    ),
    (
        RUN,
        &[("g", BLINK), ("t", "-1 tick 7\n")],
        Status::Trace,
        "trace 1 form\n",
    ),
    (
        RUN,
        &[("g", BLINK), ("t", "+0 tick 7\n")],
        Status::Trace,
        "trace 1 form\n",
    ),
    (
        RUN,
        &[("g", BLINK), ("t", "0 tick +7\n")],
        Status::Trace,
        "trace 1 form\n",
    ),
    (
        RUN,
        &[("g", BLINK), ("t", "0 tick 7x\n")],
        Status::Trace,
        "trace 1 form\n",
    ),
    (
        RUN,
        &[("g", BLINK), ("t", "0 tick -\n")],
        Status::Trace,
        "trace 1 form\n",
    ),
    (
        RUN,
        &[("g", BLINK), ("t", "0 tick 9223372036854775808\n")],
        Status::Trace,
        "trace 1 form\n",
    ),
    (
        RUN,
        &[("g", BLINK), ("t", "0 tick -9223372036854775809\n")],
        Status::Trace,
        "trace 1 form\n",
    ),
    (
        RUN,
        &[("g", BLINK), ("t", "0 tock x\n")],
        Status::Trace,
        "trace 1 form\n",
    ),
    (
        RUN,
        &[("g", BLINK), ("t", "0 tock 7\n")],
        Status::Trace,
        "trace 1 unknown\n",
    ),
    (
        RUN,
        &[("g", BLINK), ("t", "0 ticks 7\n")],
        Status::Trace,
        "trace 1 unknown\n",
    ),
    (
        RUN,
        &[("g", BLINK), ("t", "0 Tick 7\n")],
        Status::Trace,
        "trace 1 unknown\n",
    ),
    (
        RUN,
        &[("g", BLINK), ("t", "0 led 7\n")],
        Status::Trace,
        "trace 1 unknown\n",
    ),
    (
        RUN,
        &[("g", BLINK), ("t", "0 7\n")],
        Status::Trace,
        "trace 1 unknown\n",
    ),
    (
        RUN,
        &[("g", BLINK), ("t", "0 tick\n")],
        Status::Trace,
        "trace 1 width\n",
    ),
    (
        RUN,
        &[("g", BLINK), ("t", "0 tick 7 8\n")],
        Status::Trace,
        "trace 1 width\n",
    ),
    (
        RUN,
        &[("g", BLINK), ("t", "4000001 tick\n")],
        Status::Trace,
        "trace 1 width\n",
    ),
    (
        RUN,
        &[("g", INPUTS), ("t", "0 none 0\n")],
        Status::Trace,
        "trace 1 width\n",
    ),
    (
        RUN,
        &[("g", INPUTS), ("t", "0 two 1\n")],
        Status::Trace,
        "trace 1 width\n",
    ),
    (
        RUN,
        &[("g", INPUTS), ("t", "0 two 1 2 3\n")],
        Status::Trace,
        "trace 1 width\n",
    ),
    (
        RUN,
        &[("g", BLINK), ("t", "4000001 tick 7\n")],
        Status::Trace,
        "trace 1 late\n",
    ),
    (
        RUN,
        &[("g", BLINK), ("t", "99999999999999999999999999 tick 7\n")],
        Status::Trace,
        "trace 1 late\n",
    ),
    (
        RUN,
        &[("g", BLINK), ("t", "4000000 tick 7\n4000001 tick 7\n")],
        Status::Trace,
        "trace 2 late\n",
    ),
    (
        RUN,
        &[("g", BLINK), ("t", "5 tick 7\n4 tick 7\n")],
        Status::Trace,
        "trace 2 order\n",
    ),
    (
        RUN,
        &[("g", BLINK), ("t", "10 tick -5\n9 tick 0\n")],
        Status::Trace,
        "trace 2 order\n",
    ),
    (
        RUN,
        &[
            ("g", BLINK),
            ("t", "# one\n0 tick 0\n10 tick 0\n\n20 tick 0\n5 tick 0\n"),
        ],
        Status::Trace,
        "trace 6 order\n",
    ),
    (
        RUN,
        &[("g", INPUTS), ("t", "5 none\n4 one 1\n")],
        Status::Trace,
        "trace 2 order\n",
    ),
    (
        RUN,
        &[("g", BLINK), ("t", "0 tick 7\n9 tick 8\n")],
        Status::Trace,
        "trace 2 soon 10\n",
    ),
    (
        RUN,
        &[("g", BLINK), ("t", "5 tick 0\n5 tick 0\n")],
        Status::Trace,
        "trace 2 soon 15\n",
    ),
    (
        RUN,
        &[
            ("g", BLINK),
            ("t", "0 tick 0\n10 tick 0\n19 tick 0\n5 tick 0\n"),
        ],
        Status::Trace,
        "trace 3 soon 20\n",
    ),
    (
        RUN,
        &[("g", BLINK), ("t", "4000000 tick 0\n4000000 tick 0\n")],
        Status::Trace,
        "trace 2 soon 4000010\n",
    ),
    (
        RUN,
        &[
            ("g", INPUTS),
            ("t", "0 none\n0 two 1 2\n0 one 3\n6 one 4\n"),
        ],
        Status::Trace,
        "trace 4 soon 7\n",
    ),
    (
        RUN,
        &[("g", INPUTS), ("t", "0 one 1\n5 none\n7 one 2\n14 none\n")],
        Status::Trace,
        "trace 4 soon 15\n",
    ),
    (
        RUN,
        &[("g", INPUTS), ("t", "1000 two 0 0\n1000999 two 0 0")],
        Status::Trace,
        "trace 2 soon 1001000\n",
    ),
];

#[test]
fn the_first_fault_is_told(rt: HostRuntime) -> Result<(), Fail> {
    judge(rt.alloc(), FAULTS)?;
    Ok(())
}

/// What decides first: the graph before the trace, and a line at fault before the bound of jobs and lines, which may be 1,000,000.
const REFUSED: &[Row] = &[
    (
        RUN,
        &[("g", FAST), ("t", "0 tick 7\n")],
        Status::Overload,
        "overload load 5/4\narrive p.a 0 4 1 5\nhorizon 4\n",
    ),
    (
        RUN,
        &[("g", FAST), ("t", "no trace")],
        Status::Overload,
        "overload load 5/4\narrive p.a 0 4 1 5\nhorizon 4\n",
    ),
    (
        RUN,
        &[("g", MOST), ("t", "0 go 0\n0 signal\n")],
        Status::Trace,
        "trace jobs 1000001\n",
    ),
    (
        RUN,
        &[("g", MOST), ("t", "0 signal\n0 go 0\n9 signal\n")],
        Status::Trace,
        "trace 3 soon 10\n",
    ),
    (
        RUN,
        &[("g", BLINK), ("t", "0 tick 7\n9 tick 8\n")],
        Status::Trace,
        "trace 2 soon 10\n",
    ),
    (
        STOP,
        &[("g", FAST), ("t", "0 tick 7\n")],
        Status::Overload,
        "overload load 5/4\narrive p.a 0 4 1 5\nhorizon 4\n",
    ),
    (
        STOP,
        &[("g", FAST), ("t", "no trace")],
        Status::Overload,
        "overload load 5/4\narrive p.a 0 4 1 5\nhorizon 4\n",
    ),
    (
        STOP,
        &[("g", MOST), ("t", "0 go 0\n0 signal\n")],
        Status::Trace,
        "trace jobs 1000001\n",
    ),
    (
        STOP,
        &[("g", MOST), ("t", "0 signal\n0 go 0\n9 signal\n")],
        Status::Trace,
        "trace 3 soon 10\n",
    ),
    (
        STOP,
        &[("g", BLINK), ("t", "0 tick 7\n9 tick 8\n")],
        Status::Trace,
        "trace 2 soon 10\n",
    ),
];

#[test]
fn refusals_come_in_their_order(rt: HostRuntime) -> Result<(), Fail> {
    judge(rt.alloc(), REFUSED)?;
    Ok(())
}
