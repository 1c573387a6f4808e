//! Rates of graphs, their tasks, and whether they fit.
use std::test::Fail;
use yartos::Status;
use yartos_rows::{BUSY, BUSY_TEXT, COUNTER, CROWDED, RELAY, Row, TIGHT, TIGHT_TEXT, WIDE, judge};

const TASKS: &[&str] = &["tasks", "g"];

const CHECK: &[&str] = &["check", "g"];

/// A handler with a loop.
const ARITHMETIC: &str =
    "input tick(1) period 100\noutput led from p.a.o\nprocess p {\n  port a from tick (v) out o(5) {\n    let n = 0\n    repeat -3 max 4 {\n      n = n + 1\n    }\n    send o (v / 0, v % 0, 9223372036854775807 + 1, -9223372036854775807 - 2, n)\n  }\n}\n";

/// A display and a mixer that share a buffer.
const CAMERA: &str =
    "input cam(2) period 33000\ninput mic(1) period 20000\nresource buf\nprocess show in buf {\n  var shown = 0\n  port frame from cam (id, lines) out o(2) {\n    let sum = 0\n    repeat lines max 400 {\n      sum = sum + id\n    }\n    shown = shown + 1\n    send o (shown, sum)\n  }\n}\nprocess mix in buf {\n  var level = 0\n  port sample from mic (x) out o(1) {\n    level = (level * 3 + x) / 4\n    send o (level)\n  }\n}\n";

/// A handler that sends three messages, every second time.
const TRIPLE: &str =
    "input tick(1) period 10\nprocess p {\n  port a from tick (v) out o(1) every 2 {\n    send o (1)\n    send o (2)\n    send o (3)\n  }\n  port b from p.a.o (v) {\n  }\n}\n";

/// A port whose messages come too rarely.
const RARE: &str =
    "input tick(1) period 1001\nprocess p {\n  port a from tick (v) out o(1) every 1000 {\n    send o (v)\n  }\n}\nprocess q {\n  port b from p.a.o (v) {\n  }\n}\n";

/// Ports one after the other, whose messages come as late as they may.
const LONG_WAY: &str =
    "input i(0) period 1000000 process p { port a from i () out o(0) { send o () } port b from p.a.o () out o(0) { send o () } port c from p.b.o () out o(0) { send o () } port d from p.c.o () out o(0) { send o () } port e from p.d.o () { } }";

/// One port more that sends on.
const TOO_LONG_WAY: &str =
    "input i(0) period 1000000 process p { port a from i () out o(0) { send o () } port b from p.a.o () out o(0) { send o () } port c from p.b.o () out o(0) { send o () } port d from p.c.o () out o(0) { send o () } port e from p.d.o () out o(0) { send o () } }";

/// Commands on graphs.
const ANSWERS: &[Row] = &[
    (
        TASKS,
        &[("g", COUNTER)],
        Status::Done,
        "task p.slow 5 100 p\ntask p.fast 7 20 p\ntask q.hog 5 30\n",
    ),
    (
        CHECK,
        &[("g", COUNTER)],
        Status::Done,
        "accepted 3 170/300\n",
    ),
    (
        TASKS,
        &[("g", RELAY)],
        Status::Done,
        "task p.a 3 100\ntask p.c 3 100\ntask q.b 5 100\n",
    ),
    (CHECK, &[("g", RELAY)], Status::Done, "accepted 3 11/100\n"),
    (
        TASKS,
        &[("g", ARITHMETIC)],
        Status::Done,
        "task p.a 41 100\n",
    ),
    (
        CHECK,
        &[("g", ARITHMETIC)],
        Status::Done,
        "accepted 1 41/100\n",
    ),
    (
        TASKS,
        &[("g", CAMERA)],
        Status::Done,
        "task show.frame 2012 33000 buf\ntask mix.sample 11 20000 buf\n",
    ),
    (
        CHECK,
        &[("g", CAMERA)],
        Status::Done,
        "accepted 2 40603/660000\n",
    ),
    (
        TASKS,
        &[("g", TRIPLE)],
        Status::Done,
        "task p.a 7 10\ntask p.b 1 6\n",
    ),
    (CHECK, &[("g", TRIPLE)], Status::Done, "accepted 2 26/30\n"),
    (
        CHECK,
        &[("g", CROWDED)],
        Status::Graph,
        "graph rate p.a.o zero\n",
    ),
    (
        CHECK,
        &[("g", RARE)],
        Status::Graph,
        "graph rate q.b over 1001000\n",
    ),
    (
        TASKS,
        &[("g", BUSY)],
        Status::Done,
        "task p.a 5 10\ntask p.b 3 4\n",
    ),
    (CHECK, &[("g", BUSY)], Status::Overload, BUSY_TEXT),
    (
        TASKS,
        &[("g", TIGHT)],
        Status::Done,
        "task sensor.read 3 20 bus\ntask motor.turn 5 24\ntask display.draw 18 200 bus\n",
    ),
    (CHECK, &[("g", TIGHT)], Status::Overload, TIGHT_TEXT),
    (
        CHECK,
        &[("g", WIDE)],
        Status::Graph,
        "graph hyperperiod p.f\n",
    ),
    (
        CHECK,
        &[("g", LONG_WAY)],
        Status::Done,
        "accepted 5 9/1000000\n",
    ),
    (
        TASKS,
        &[("g", TOO_LONG_WAY)],
        Status::Graph,
        "graph rate p.e span\n",
    ),
    (TASKS, &[("g", "")], Status::Done, ""),
];

#[test]
fn rates_and_loads_are_judged(rt: HostRuntime) -> Result<(), Fail> {
    judge(rt.alloc(), ANSWERS)?;
    Ok(())
}
