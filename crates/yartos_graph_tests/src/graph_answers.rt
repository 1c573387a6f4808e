//! Commands on graphs: their answers and refusals.
use std::test::Fail;
use yartos::Status;
use yartos_rows::{BLINK, COSTLY, FAST, MANY_SENDS, Row, UNDECLARED, judge};

const FORM: &[&str] = &["form", "g"];

const TASKS: &[&str] = &["tasks", "g"];

const CHECK: &[&str] = &["check", "g"];

/// A graph that calls an operator, with a name that isn't declared.
const CALL: &str =
    "process p {\n  port a from tick () {\n    if 1 {\n    } else {\n      let x = greater(1, 2)\n    }\n  }\n}\n";

/// Two ports that feed each other.
const LOOP: &str =
    "process p {\n  port a from q.b.o () out o(0) {\n    send o ()\n  }\n}\nprocess q {\n  port b from p.a.o () out o(0) {\n    send o ()\n  }\n}\n";

/// Commands on graphs whose texts, names, costs and loads are in order, or not.
const JUDGED: &[Row] = &[
    (FORM, &[("g", BLINK)], Status::Done, BLINK),
    (
        FORM,
        &[("g", "input tick ( 01 )  period 10 # ten")],
        Status::Done,
        "input tick(1) period 10\n",
    ),
    (FORM, &[("g", UNDECLARED)], Status::Done, UNDECLARED),
    (
        FORM,
        &[("g", "process")],
        Status::Graph,
        "graph syntax 1 8\n",
    ),
    (
        FORM,
        &[("g", "process !")],
        Status::Graph,
        "graph lex 1 9 bad\n",
    ),
    (FORM, &[("g", CALL)], Status::NotYet, "notyet\n"),
    (TASKS, &[("g", BLINK)], Status::Done, "task p.a 5 10\n"),
    (CHECK, &[("g", BLINK)], Status::Done, "accepted 1 5/10\n"),
    (
        CHECK,
        &[("g", FAST)],
        Status::Overload,
        "overload load 5/4\narrive p.a 0 4 1 5\nhorizon 4\n",
    ),
    (CHECK, &[("g", CALL)], Status::NotYet, "notyet\n"),
    (
        TASKS,
        &[("g", UNDECLARED)],
        Status::Graph,
        "graph name 1 17 unknown\n",
    ),
    (
        CHECK,
        &[("g", LOOP)],
        Status::Graph,
        "graph name 2 8 cycle\n",
    ),
    (FORM, &[("g", COSTLY)], Status::Done, COSTLY),
    (
        CHECK,
        &[("g", COSTLY)],
        Status::Graph,
        "graph cost p.a 3003003\n",
    ),
    (
        TASKS,
        &[("g", COSTLY)],
        Status::Graph,
        "graph cost p.a 3003003\n",
    ),
    (
        CHECK,
        &[("g", MANY_SENDS)],
        Status::Graph,
        "graph sends p.a o\n",
    ),
];

#[test]
fn graphs_are_judged_in_order(rt: HostRuntime) -> Result<(), Fail> {
    judge(rt.alloc(), JUDGED)?;
    Ok(())
}

/// Graphs, and the one way in which they are printed.
const PRINTED: &[Row] = &[
    (FORM, &[("g", "")], Status::Done, ""),
    (
        FORM,
        &[(
            "g",
            "process p in r{var x=-0 var y=- 007 port a from i(v,w)out o(2)every 01{}port b from p.a.o(){}}resource r",
        )],
        Status::Done,
        "process p in r {\n  var x = 0\n  var y = -7\n  port a from i (v, w) out o(2) every 1 {\n  }\n  port b from p.a.o () {\n  }\n}\nresource r\n",
    ),
    (
        FORM,
        &[(
            "g",
            "process p{port a from i(){let x=-(1)*2 x=not x<3 and 1 or 0 if x{send o()}else{repeat x max 3{send o(x,1)}}}}",
        )],
        Status::Done,
        "process p {\n  port a from i () {\n    let x = -(1) * 2\n    x = not x < 3 and 1 or 0\n    if x {\n      send o ()\n    } else {\n      repeat x max 3 {\n        send o (x, 1)\n      }\n    }\n  }\n}\n",
    ),
];

#[test]
fn graphs_are_printed_in_one_way(rt: HostRuntime) -> Result<(), Fail> {
    judge(rt.alloc(), PRINTED)?;
    Ok(())
}
