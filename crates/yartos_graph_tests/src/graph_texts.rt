//! Texts of graphs at the edges of tokens, grammar, names, numbers and costs, and what `check` says of them.
use std::test::Fail;
use yartos::Status;
use yartos_rows::{Row, judge};

const CHECK: &[&str] = &["check", "g"];

/// Texts at the edges of tokens.
const TOKENS: &[Row] = &[
    (CHECK, &[("g", "")], Status::Done, "accepted 0 0/1\n"),
    (
        CHECK,
        &[("g", "# nothing")],
        Status::Done,
        "accepted 0 0/1\n",
    ),
    (CHECK, &[("g", "!")], Status::Graph, "graph lex 1 1 bad\n"),
    (
        CHECK,
        &[("g", "input a@(1)")],
        Status::Graph,
        "graph lex 1 8 bad\n",
    ),
    (
        CHECK,
        &[("g", "\u{e9}")],
        Status::Graph,
        "graph lex 1 1 bad\n",
    ),
    (
        CHECK,
        &[("g", "resource nnnnnnnnnnnnnnnnnnnnnnnnnnnnnnnn")],
        Status::Done,
        "accepted 0 0/1\n",
    ),
    (
        CHECK,
        &[("g", "resource nnnnnnnnnnnnnnnnnnnnnnnnnnnnnnnnn")],
        Status::Graph,
        "graph lex 1 10 long\n",
    ),
    (
        CHECK,
        &[("g", "input a(9223372036854775808) period 1")],
        Status::Graph,
        "graph lex 1 9 big\n",
    ),
    (
        CHECK,
        &[("g", "input a(9223372036854775807) period 1")],
        Status::Graph,
        "graph limit 1 9 width\n",
    ),
    (
        CHECK,
        &[("g", "input in $")],
        Status::Graph,
        "graph lex 1 10 bad\n",
    ),
    (
        CHECK,
        &[("g", "resource r # s\r\nresource s")],
        Status::Done,
        "accepted 0 0/1\n",
    ),
    (
        CHECK,
        &[("g", "resource r\r\n\tresource r")],
        Status::Graph,
        "graph name 2 11 twice\n",
    ),
    (
        CHECK,
        &[("g", "resource # r\n\n r")],
        Status::Done,
        "accepted 0 0/1\n",
    ),
    (
        CHECK,
        &[("g", "process p { # \u{e9}")],
        Status::Graph,
        "graph syntax 1 17\n",
    ),
    (
        CHECK,
        &[("g", "process p {\n")],
        Status::Graph,
        "graph syntax 2 1\n",
    ),
];

#[test]
fn tokens_are_judged_at_their_place(rt: HostRuntime) -> Result<(), Fail> {
    judge(rt.alloc(), TOKENS)?;
    Ok(())
}

/// Texts at the edges of the grammar.
const GRAMMAR: &[Row] = &[
    (
        CHECK,
        &[("g", "input")],
        Status::Graph,
        "graph syntax 1 6\n",
    ),
    (
        CHECK,
        &[("g", "input a(1) 10")],
        Status::Graph,
        "graph syntax 1 12\n",
    ),
    (
        CHECK,
        &[("g", "resource r,")],
        Status::Graph,
        "graph syntax 1 11\n",
    ),
    (
        CHECK,
        &[("g", "process p { port a from x y (v) { } }")],
        Status::Graph,
        "graph syntax 1 27\n",
    ),
    (
        CHECK,
        &[("g", "process p { port a from x.y (v) { } }")],
        Status::Graph,
        "graph syntax 1 29\n",
    ),
    (
        CHECK,
        &[("g", "process p { port a from i (v,) { } }")],
        Status::Graph,
        "graph syntax 1 30\n",
    ),
    (
        CHECK,
        &[("g", "process p { port a from i () { } var x = 0 }")],
        Status::Graph,
        "graph syntax 1 34\n",
    ),
    (
        CHECK,
        &[("g", "process p { var x = -- 1 }")],
        Status::Graph,
        "graph syntax 1 22\n",
    ),
    (
        CHECK,
        &[("g", "process p { port a from i () { x = 1 < 2 < 3 } }")],
        Status::Graph,
        "graph syntax 1 42\n",
    ),
    (
        CHECK,
        &[("g", "process p { port a from i () { x = 1 + not 2 } }")],
        Status::Graph,
        "graph syntax 1 40\n",
    ),
    (
        CHECK,
        &[("g", "process p { port a from i () { x = f() } }")],
        Status::Graph,
        "graph syntax 1 38\n",
    ),
    (
        CHECK,
        &[("g", "process p { port a from i () { x = 1 (2) } }")],
        Status::Graph,
        "graph syntax 1 38\n",
    ),
    (
        CHECK,
        &[("g", "process p { port a from i () { if 1 { } else if } }")],
        Status::Graph,
        "graph syntax 1 46\n",
    ),
    (
        CHECK,
        &[("g", "process p { port a from i () { repeat 1 max x { } } }")],
        Status::Graph,
        "graph syntax 1 45\n",
    ),
    (
        CHECK,
        &[("g", "process p { port a from i () { x = greater(1, 2) } }")],
        Status::NotYet,
        "notyet\n",
    ),
];

#[test]
fn grammar_is_judged_at_its_place(rt: HostRuntime) -> Result<(), Fail> {
    judge(rt.alloc(), GRAMMAR)?;
    Ok(())
}

/// Texts at the edges of names.
const NAMES: &[Row] = &[
    (
        CHECK,
        &[("g", "output o from p.a.o")],
        Status::Graph,
        "graph name 1 15 unknown\n",
    ),
    (
        CHECK,
        &[("g", "process p in r { }")],
        Status::Graph,
        "graph name 1 14 unknown\n",
    ),
    (
        CHECK,
        &[("g", "process p { } output o from p.a.o")],
        Status::Graph,
        "graph name 1 31 unknown\n",
    ),
    (
        CHECK,
        &[(
            "g",
            "input i(0) period 1 process p { port a from i () { } } output o from p.a.o",
        )],
        Status::Graph,
        "graph name 1 74 unknown\n",
    ),
    (
        CHECK,
        &[("g", "process p { port a from i () { } }")],
        Status::Graph,
        "graph name 1 25 unknown\n",
    ),
    (
        CHECK,
        &[(
            "g",
            "input i(0) period 1 process p { port a from i () { x = 1 } }",
        )],
        Status::Graph,
        "graph name 1 52 unknown\n",
    ),
    (
        CHECK,
        &[(
            "g",
            "input i(0) period 1 process p { port a from i () { let x = x } }",
        )],
        Status::Graph,
        "graph name 1 60 unknown\n",
    ),
    (
        CHECK,
        &[(
            "g",
            "input i(0) period 1 process p { port a from i () { if 1 { let x = 1 } let y = x } }",
        )],
        Status::Graph,
        "graph name 1 79 unknown\n",
    ),
    (
        CHECK,
        &[(
            "g",
            "input i(0) period 1 process p { port a from i () { send o () } }",
        )],
        Status::Graph,
        "graph name 1 57 unknown\n",
    ),
    (
        CHECK,
        &[("g", "resource r process p { port a from r () { } }")],
        Status::Graph,
        "graph name 1 36 kind\n",
    ),
    (
        CHECK,
        &[("g", "input i(0) period 1 process p in i { }")],
        Status::Graph,
        "graph name 1 34 kind\n",
    ),
    (
        CHECK,
        &[("g", "resource r output o from r.a.o")],
        Status::Graph,
        "graph name 1 26 kind\n",
    ),
    (
        CHECK,
        &[("g", "input a(0) period 1 resource a")],
        Status::Graph,
        "graph name 1 30 twice\n",
    ),
    (
        CHECK,
        &[("g", "process p { var x = 1 var x = 2 }")],
        Status::Graph,
        "graph name 1 27 twice\n",
    ),
    (
        CHECK,
        &[(
            "g",
            "input i(0) period 1 process p { port a from i () { } port a from i () { } }",
        )],
        Status::Graph,
        "graph name 1 59 twice\n",
    ),
    (
        CHECK,
        &[(
            "g",
            "input i(1) period 1 process p { var v = 0 port a from i (v) { } }",
        )],
        Status::Graph,
        "graph name 1 58 twice\n",
    ),
    (
        CHECK,
        &[(
            "g",
            "input i(2) period 1 process p { port a from i (v, v) { } }",
        )],
        Status::Graph,
        "graph name 1 51 twice\n",
    ),
    (
        CHECK,
        &[(
            "g",
            "input i(3) period 1 process p { port a from i (v, v) { } }",
        )],
        Status::Graph,
        "graph name 1 38 width\n",
    ),
    (
        CHECK,
        &[(
            "g",
            "input i(0) period 9 process p { port a from i () { if 1 { let x = 1 } let x = 2 } }",
        )],
        Status::Done,
        "accepted 1 7/9\n",
    ),
    (
        CHECK,
        &[(
            "g",
            "input i(0) period 1 process p { port a from i () out o(1) { send o (1, 2) } }",
        )],
        Status::Graph,
        "graph name 1 66 width\n",
    ),
    (
        CHECK,
        &[(
            "g",
            "input i(0) period 1 process p { port a from p.a.o () out o(0) { } }",
        )],
        Status::Graph,
        "graph name 1 38 cycle\n",
    ),
    (
        CHECK,
        &[(
            "g",
            "process p { port a from p.b.o () { } port b from p.b.o () out o(0) { } }",
        )],
        Status::Graph,
        "graph name 1 18 cycle\n",
    ),
];

#[test]
fn names_are_judged_at_their_place(rt: HostRuntime) -> Result<(), Fail> {
    judge(rt.alloc(), NAMES)?;
    Ok(())
}

/// Texts with numbers at and past their limits.
const NUMBERS: &[Row] = &[
    (
        CHECK,
        &[("g", "input a(8) period 1")],
        Status::Done,
        "accepted 0 0/1\n",
    ),
    (
        CHECK,
        &[("g", "input a(9) period 1")],
        Status::Graph,
        "graph limit 1 9 width\n",
    ),
    (
        CHECK,
        &[("g", "input a(0) period 1000000")],
        Status::Done,
        "accepted 0 0/1\n",
    ),
    (
        CHECK,
        &[("g", "input a(0) period 1000001")],
        Status::Graph,
        "graph limit 1 19 period\n",
    ),
    (
        CHECK,
        &[("g", "input a(0) period 0")],
        Status::Graph,
        "graph limit 1 19 period\n",
    ),
    (
        CHECK,
        &[(
            "g",
            "input i(0) period 1 process p { port a from i () out o(8) every 1000 { repeat 1 max 10000 { } } }",
        )],
        Status::Graph,
        "graph rate p.a.o zero\n",
    ),
    (
        CHECK,
        &[(
            "g",
            "input i(0) period 1 process p { port a from i () out o(9) { } }",
        )],
        Status::Graph,
        "graph limit 1 56 width\n",
    ),
    (
        CHECK,
        &[(
            "g",
            "input i(0) period 1 process p { port a from i () out o(0) every 0 { } }",
        )],
        Status::Graph,
        "graph limit 1 65 every\n",
    ),
    (
        CHECK,
        &[(
            "g",
            "input i(0) period 1 process p { port a from i () out o(0) every 1001 { } }",
        )],
        Status::Graph,
        "graph limit 1 65 every\n",
    ),
    (
        CHECK,
        &[(
            "g",
            "input i(0) period 1 process p { port a from i () { repeat 1 max 0 { } } }",
        )],
        Status::Graph,
        "graph limit 1 65 turns\n",
    ),
    (
        CHECK,
        &[(
            "g",
            "input i(0) period 1 process p { port a from i () { repeat 1 max 10001 { } } }",
        )],
        Status::Graph,
        "graph limit 1 65 turns\n",
    ),
];

#[test]
fn numbers_are_judged_at_their_place(rt: HostRuntime) -> Result<(), Fail> {
    judge(rt.alloc(), NUMBERS)?;
    Ok(())
}

/// Texts whose handlers take and send as much as they may, or more.
const COSTS: &[Row] = &[
    (
        CHECK,
        &[(
            "g",
            "input i(1) period 1 process p { port a from i (v) out o(1) { repeat v max 1000 { repeat v max 1000 { let x = 1 } } } }",
        )],
        Status::Graph,
        "graph cost p.a 3003003\n",
    ),
    (
        CHECK,
        &[(
            "g",
            "input i(1) period 1 process p { port a from i (v) out o(1) { repeat v max 65 { send o (v) } } }",
        )],
        Status::Graph,
        "graph sends p.a o\n",
    ),
    (
        CHECK,
        &[(
            "g",
            "input i(1) period 1000 process p { port a from i (v) out o(1) { repeat v max 64 { send o (v) } } }",
        )],
        Status::Done,
        "accepted 1 195/1000\n",
    ),
    (
        CHECK,
        &[(
            "g",
            "input i(1) period 1000000 process p { port a from i (v) { repeat v max 1000 { repeat v max 332 { let x = 1 } } repeat v max 331 { let x = 1 } let x = 1 } }",
        )],
        Status::Done,
        "accepted 1 1000000/1000000\n",
    ),
    (
        CHECK,
        &[(
            "g",
            "input i(1) period 1 process p { port a from i (v) out o(1) { repeat v max 1000 { repeat v max 332 { let x = 1 } } repeat v max 331 { let x = 1 } let x = -1 } }",
        )],
        Status::Graph,
        "graph cost p.a 1000001\n",
    ),
    (
        CHECK,
        &[(
            "g",
            "input i(1) period 1 process p { port a from i (v) out o(1) { if v { send o (1) repeat v max 63 { send o (1) } } else { repeat v max 65 { send o (2) } } } }",
        )],
        Status::Graph,
        "graph sends p.a o\n",
    ),
    (
        CHECK,
        &[(
            "g",
            "input i(1) period 1000 process p { port a from i (v) out o(1) { if v { repeat v max 64 { send o (1) } } else { repeat v max 64 { send o (2) } } } }",
        )],
        Status::Done,
        "accepted 1 198/1000\n",
    ),
    (
        CHECK,
        &[(
            "g",
            "input i(1) period 1 process p { port a from i (v) out o(1) { if v { send o (0) } repeat v max 64 { send o (1) } } }",
        )],
        Status::Graph,
        "graph sends p.a o\n",
    ),
    (
        CHECK,
        &[(
            "g",
            "input i(1) period 1 process p { port a from i (v) out o(1) out e(1) { repeat v max 65 { send e (v) } } }",
        )],
        Status::Graph,
        "graph sends p.a e\n",
    ),
    (
        CHECK,
        &[(
            "g",
            "input i(1) period 1000 process p { port a from i (v) out o(1) out e(1) { repeat v max 64 { send e (v) send o (v) } } }",
        )],
        Status::Done,
        "accepted 1 323/1000\n",
    ),
    (
        CHECK,
        &[(
            "g",
            "input i(1) period 1 process p { port a from i (v) out o(1) { repeat v max 10000 { repeat v max 65 { send o (v) } } } }",
        )],
        Status::Graph,
        "graph cost p.a 1980003\n",
    ),
    (
        CHECK,
        &[(
            "g",
            "input i(1) period 1 process p { port a from i (v) out o(1) {  } port b from i (v) { repeat v max 1000 { repeat v max 1000 { let x = 1 } } } }",
        )],
        Status::Graph,
        "graph cost p.b 3003003\n",
    ),
    (
        CHECK,
        &[(
            "g",
            "input i(1) period 1 process p { port a from i (v) out o(1) { repeat v max 65 { send o (v) } } port b from i (v) { repeat v max 1000 { repeat v max 1000 { let x = 1 } } } }",
        )],
        Status::Graph,
        "graph sends p.a o\n",
    ),
    (
        CHECK,
        &[(
            "g",
            "input i(1) period 1 process p { port a from i (v) out o(1) { repeat v max 1000 { repeat v max 1000 { let x = 1 } } } port b from i (v) { let y = w } }",
        )],
        Status::Graph,
        "graph name 1 146 unknown\n",
    ),
    (
        CHECK,
        &[(
            "g",
            "input i(1) period 1 process p { port a from i (v) out o(1) { repeat v max 10000 { repeat v max 10000 { repeat v max 10000 { repeat v max 10000 { let x = 1 } } } } } }",
        )],
        Status::Graph,
        "graph cost p.a 30003000300030003\n",
    ),
    (
        CHECK,
        &[(
            "g",
            "input i(1) period 1 process p { port a from i (v) out o(1) { repeat v max 10000 { repeat v max 10000 { repeat v max 10000 { repeat v max 10000 { repeat v max 10000 { let x = 1 } } } } } } }",
        )],
        Status::Graph,
        "graph cost p.a 18446744073709551615\n",
    ),
];

#[test]
fn costs_are_judged_by_port(rt: HostRuntime) -> Result<(), Fail> {
    judge(rt.alloc(), COSTS)?;
    Ok(())
}
