//! Handlers of texts, handled by the plain interpreter and by the machine.

ghost use Rattle.std.specs.Prelude.{◌≡◌, ◌≤◌, IfOk, length, take};
ghost use Rattle.yt_graph.specs.Picture.{graph_tree};
ghost use Rattle.yt_graph.specs.WellFormed.{IsWellFormed};
ghost use Rattle.yt_graph.specs.Sends.{messages_on};
ghost use Rattle.yt_cost.specs.CodeFit.{HasNoCalls};

use std::alloc::Global;
use std::process::Abort;
use std::test::Fail;
use yt_code::{Code, Machine, Outbox, Stepped};
use yt_cost::compile;
use yt_graph::{Graph, SendItem};
use yt_lexer::lex;
use yt_mean::handle;
use yt_names::resolve;
use yt_parser::parse;

/// A handler's statements; its message; and what is left then of the variable `x`, which was 5, at which ticks from 0 it got a new
/// value, what was sent, value by value, and how many ticks that took.
type Row = (&'static str, i64, i64, &'static [u64], &'static [i64], u64);

const HANDLERS: &[Row] = &[
    ("x = v + 1", i64::MAX, i64::MIN, &[3], &[], 5),
    ("x = v - 1", i64::MIN, i64::MAX, &[3], &[], 5),
    ("x = v * 2", i64::MAX, -2, &[3], &[], 5),
    ("x = -v", i64::MIN, i64::MIN, &[2], &[], 4),
    ("x = v / -1", i64::MIN, i64::MIN, &[4], &[], 6),
    ("x = v / 0", 7, 0, &[3], &[], 5),
    ("x = v % 0", 7, 0, &[3], &[], 5),
    ("x = v / 2", -7, -3, &[3], &[], 5),
    ("x = v % 2", -7, -1, &[3], &[], 5),
    ("x = v % -2", 7, 1, &[4], &[], 6),
    ("x = v != 4", 4, 0, &[3], &[], 5),
    ("x = v <= 4", 4, 1, &[3], &[], 5),
    ("x = v or 2", 0, 1, &[3], &[], 5),
    ("x = not (v and x)", 3, 0, &[4], &[], 6),
    ("repeat v max 4 { x = x + 1 }", -3, 5, &[], &[], 3),
    ("repeat v max 4 { x = x + 1 }", 2, 7, &[5, 10], &[], 13),
    (
        "repeat v max 4 { x = x + 1 }",
        9,
        9,
        &[5, 10, 15, 20],
        &[],
        23,
    ),
    (
        "repeat v max 9 { repeat 2 max 9 { x = x + v } }",
        3,
        23,
        &[7, 12, 20, 25, 33, 38],
        &[],
        42,
    ),
    ("if v { x = 1 } else { x = 2 }", 0, 2, &[3], &[], 5),
    ("if v { x = 1 } else { x = 2 }", -1, 1, &[3], &[], 6),
    ("if v { x = 1 }", 0, 5, &[], &[], 3),
    ("let w = v x = w", 6, 6, &[3], &[], 5),
    (
        "send o (v, v + 1, -v, not v, v < 4, v >= 4, v == 3, v and 0)",
        3,
        5,
        &[],
        &[3, 4, -3, 0, 1, 0, 1, 0],
        22,
    ),
    ("send e (x) x = v send e (x)", 2, 2, &[3], &[5, 2], 7),
    (
        "repeat v max 3 { send e (v) v = v + 1 }",
        2,
        5,
        &[],
        &[2, 3],
        17,
    ),
];

/// Takes the messages that the interpreter sent, in order, and stops the test at any other.
#[derive(Drop)]
struct Same<'a, R: Abort> {
    rt: &'a R,
    sends: &'a [SendItem],
    taken: usize,
}

impl<'a, R: Abort> Outbox for Same<'a, R> {
    ghost sent = { λ b o. messages_on o (take b.taken b.sends.now) };

    ghost takes = { λ _ _ _. Unit {0} };

    ghost leaves = { λ _ _ _ _. Unit {0} };

    fn send(&mut self, out: u32, values: &[i64]) {
        assert!(self.rt; self.taken < self.sends.len(), "one message too many");
        let wanted = &self.sends[self.taken];
        assert!(self.rt; wanted.out == out);
        assert!(self.rt; wanted.values.as_slice() == values);
        self.taken += 1;
    }
}

/// The graph of a text without a fault.
pub(crate) fn graph_of(alloc: Global, text: &[u8]) -> Result<Graph, Fail>
    requires { length text.now ≤ 16777216 }
    ensures { IfOk result (λ g. IsWellFormed (graph_tree g) × HasNoCalls (graph_tree g)) }
{
    let Ok(tokens) = lex(alloc, text) else {
        return Err(Fail::from("a fault of tokens"));
    };
    let Ok(ast) = parse(alloc, text, &tokens) else {
        return Err(Fail::from("a fault of syntax"));
    };
    match resolve(alloc, &ast, &[]) {
        Ok(graph) => Ok(graph),
        Err(_) => Err(Fail::from("a fault of names")),
    }
}

/// Steps through the code to its end, and counts the ticks: 0 where they are too many. The code sends what the interpreter sent,
/// and changes the one variable at these ticks.
fn ticks_of<R: Abort>(
    rt: &R,
    code: &Code,
    msg: &[i64],
    vars: &mut [i64],
    sends: &[SendItem],
    writes: &[u64],
) -> u64 {
    assert!(rt; code.params() as usize == msg.len());
    assert!(rt; code.vars() as usize == vars.len());
    assert!(rt; vars.len() == 1);
    let mut machine = Machine::new();
    machine.begin(code, msg);
    let mut out = Same {
        rt,
        sends,
        taken: 0,
    };
    let mut written = 0;
    for n in 0..1000 {
        let before = vars[0];
        let stepped = machine.step(code, vars, &mut out);
        if vars[0] != before {
            assert!(rt; written < writes.len(), "one write too many");
            assert_eq!(rt; writes[written], n);
            written += 1;
        }
        match stepped {
            Stepped::Going => {}
            Stepped::Ended => {
                assert!(rt; out.taken == sends.len(), "a message is missing");
                assert!(rt; written == writes.len(), "a write is missing");
                return n + 1;
            }
        }
    }
    0
}

/// Handles a row's message in both ways.
fn check(rt: &(impl Abort + AllocGlobal), row: &Row) -> Result<(), Fail> {
    let alloc = rt.alloc();
    let (body, v, x, writes, sends, ticks) = *row;
    let mut text = Vec::from_slice(
        alloc,
        b"input i(1) period 1 process p { var x = 5 port a from i (v) out o(8) out e(1) {",
    )?;
    text.extend_from_slice(body.as_bytes())?;
    text.extend_from_slice(b"} }")?;
    assert!(rt; text.len() <= 1000);
    let graph = graph_of(alloc, &text)?;
    let Ok(codes) = compile(alloc, &graph) else {
        return Err(Fail::from("a fault of costs"));
    };
    assert!(rt; graph.ports.len() == 1 && graph.vars.len() == 1);
    assert!(rt; graph.ports.at(0).params == 1);
    let told = handle(alloc, &graph, 1, &[v], &[5])?;
    let mut sent = Vec::new(alloc);
    for message in told.sends.as_slice() {
        sent.extend_from_slice(message.values.as_slice())?;
    }
    assert_eq!(rt; told.ticks, ticks, "at {body}");
    assert_eq!(rt; told.vars.as_slice(), [x].as_slice(), "at {body}");
    assert_eq!(rt; sent.as_slice(), sends, "at {body}");
    let mut vars = [5];
    let made = ticks_of(
        rt,
        codes.code(1),
        &[v],
        &mut vars,
        told.sends.as_slice(),
        writes,
    );
    assert_eq!(rt; made, ticks, "at {body}");
    assert_eq!(rt; vars, [x], "at {body}");
    Ok(())
}

/// Handles each row's message.
fn check_all(rt: &(impl Abort + AllocGlobal), rows: &[Row]) -> Result<(), Fail> {
    for row in rows {
        check(rt, row)?;
    }
    Ok(())
}

#[test]
fn interpreter_and_machine_agree(rt: HostRuntime) -> Result<(), Fail> {
    check_all(&rt, HANDLERS)
}
