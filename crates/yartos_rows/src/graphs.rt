//! Graphs that more than one table names.

/// A graph that is run.
pub const BLINK: &str =
    "input tick(1) period 10\noutput led from p.a.o\nprocess p {\n  port a from tick (v) out o(1) {\n    send o (v + 1)\n  }\n}\n";

/// The same with a period that is too short for its handler.
pub const FAST: &str =
    "input tick(1) period 4\noutput led from p.a.o\nprocess p {\n  port a from tick (v) out o(1) {\n    send o (v + 1)\n  }\n}\n";

/// A graph with a name that isn't declared.
pub const UNDECLARED: &str = "output led from p.a.o\n";

/// A graph of one port whose loops may take more than 1,000,000 ticks.
pub const COSTLY: &str =
    "input tick(1) period 10\noutput led from p.a.o\nprocess p {\n  port a from tick (v) out o(1) {\n    repeat v max 1000 {\n      repeat v max 1000 {\n        let x = 1\n      }\n    }\n  }\n}\n";

/// A graph of one port that may send more than 64 messages.
pub const MANY_SENDS: &str =
    "input tick(1) period 10\noutput led from p.a.o\nprocess p {\n  port a from tick (v) out o(1) {\n    repeat v max 65 {\n      send o (v)\n    }\n  }\n}\n";

/// Three ports of two processes, of which one has a variable.
pub const COUNTER: &str =
    "input a(0) period 100\ninput b(0) period 20\ninput c(1) period 30\noutput y from p.fast.o\nprocess p {\n  var s = 1\n  port slow from a () {\n    s = s * 2\n  }\n  port fast from b () out o(1) {\n    s = s + 1\n    send o (s)\n  }\n}\nprocess q {\n  port hog from c (v) {\n    let x = v + 1\n  }\n}\n";

/// A way over three ports and back to the first process.
pub const RELAY: &str =
    "input go(0) period 100\noutput done from p.c.o\nprocess p {\n  port a from go () out o(1) {\n    send o (1)\n  }\n  port c from q.b.o (x) out o(1) {\n    send o (x)\n  }\n}\nprocess q {\n  port b from p.a.o (x) out o(1) {\n    send o (x + 1)\n  }\n}\n";

/// A handler that sends more messages than its period has ticks.
pub const CROWDED: &str =
    "input tick(1) period 10\nprocess p {\n  port a from tick (v) out o(1) {\n    repeat v max 11 {\n      send o (v)\n    }\n  }\n}\n";

/// Two ports that ask for more than there is.
pub const BUSY: &str =
    "input i(0) period 10\ninput j(0) period 4\nprocess p {\n  port a from i () {\n    let x = 1 + 1\n  }\n  port b from j () {\n    let x = 1\n  }\n}\n";

/// What tells that they do.
pub const BUSY_TEXT: &str =
    "overload load 25/20\narrive p.a 0 10 2 5\narrive p.b 0 4 5 3\nhorizon 20\n";

/// A sensor and a display that share a bus, and a motor that needs none: the display keeps the bus too long.
pub const TIGHT: &str =
    "input probe(1) period 20\ninput pulse(1) period 24\ninput frame(1) period 200\noutput power from motor.turn.power\nresource bus\nprocess sensor in bus {\n  var level = 0\n  port read from probe (v) {\n    level = v\n  }\n}\nprocess motor {\n  port turn from pulse (v) out power(1) {\n    send power (v * 2)\n  }\n}\nprocess display in bus {\n  var shown = 0\n  port draw from frame (v) {\n    repeat v max 3 {\n      shown = shown + 1\n    }\n  }\n}\n";

/// What tells that it does.
pub const TIGHT_TEXT: &str =
    "overload interval display.draw 25 26\narrive sensor.read 1 20 1 3\narrive motor.turn 1 24 1 5\narrive display.draw 0 200 1 18\nhorizon 25\n";

/// Periods without a multiple that can be computed with.
pub const WIDE: &str =
    "input a(0) period 999995 input b(0) period 999996 input c(0) period 999997 input d(0) period 999998 input e(0) period 999999 input f(0) period 1000000 process p { port a from a () { } port b from b () { } port c from c () { } port d from d () { } port e from e () { } port f from f () { } }";
