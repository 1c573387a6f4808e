//! Compiled handlers, stepped to their end.

use crate::graphs::pair;
use crate::machines::{Sent, run};
use crate::nested::{Inner, Nested, ONE, handler};
use arrayvec::ArrayVec;
use std::alloc::Global;
use std::process::Abort;
use std::test::Fail;
use yt_code::Machine;
use yt_cost::compile;
use yt_graph::Op2;

/// What the execution of a handler's code leaves.
#[derive(Drop)]
struct Run {
    ticks: usize,
    eight: Option<ArrayVec<i64, 8>>,
    ones: ArrayVec<i64, 8>,
}

/// Compiles a handler, and executes its code alone with a message.
fn executed<R: Abort>(rt: &R, alloc: Global, nested: Nested, message: i64) -> Result<Run, Fail> {
    let first = handler(alloc, nested)?;
    let second = handler(alloc, ONE)?;
    let graph = pair(alloc, first, second)?;
    let Ok(codes) = compile(alloc, &graph) else {
        return Err(Fail::from("not compiled"));
    };
    let mut machine = Machine::new();
    let mut out = Sent::new(rt);
    let compiled = codes.code(1);
    machine.begin(compiled, &[message]);
    let ticks = run(&mut machine, compiled, &mut [], &mut out);
    let Sent { eight, ones, .. } = out;
    Ok(Run { ticks, eight, ones })
}

/// An operator, its right side, its left side, and its value.
const VALUES: &[(Op2, i64, i64, i64)] = &[
    (Op2::Add, 1, i64::MAX, i64::MIN),
    (Op2::Sub, 1, i64::MIN, i64::MAX),
    (Op2::Mul, 2, i64::MAX, -2),
    (Op2::Mul, -1, i64::MIN, i64::MIN),
    (Op2::Div, 0, 7, 0),
    (Op2::Rem, 0, 7, 0),
    (Op2::Div, 2, -7, -3),
    (Op2::Rem, 2, -7, -1),
    (Op2::Div, -2, 7, -3),
    (Op2::Rem, -2, 7, 1),
    (Op2::Div, -1, i64::MIN, i64::MIN),
    (Op2::Rem, -1, i64::MIN, 0),
    (Op2::Lt, 2, 2, 0),
    (Op2::Le, 2, 2, 1),
    (Op2::Gt, 2, 2, 0),
    (Op2::Ge, 2, 2, 1),
    (Op2::Eq, 2, -2, 0),
    (Op2::Ne, 2, -2, 1),
    (Op2::Or, 0, -2, 1),
    (Op2::And, 0, -2, 0),
];

/// Checks each operator's value.
fn judge_values(
    rt: &(impl Abort + AllocGlobal),
    rows: &[(Op2, i64, i64, i64)],
) -> Result<(), Fail> {
    for (op, right, left, wanted) in rows {
        let nested = Nested {
            inner: Inner::Value(*op, *right),
            turns: &[],
        };
        let done = executed(rt, rt.alloc(), nested, *left)?;
        assert_eq!(rt; done.ticks, 5);
        assert_eq!(rt; done.ones.as_slice(), [*wanted].as_slice());
    }
    Ok(())
}

#[test]
fn operators_have_their_values(rt: HostRuntime) -> Result<(), Fail> {
    judge_values(&rt, VALUES)
}

/// A handler and its message, the ticks that it takes, and what it sends.
struct Row {
    nested: Nested,
    message: i64,
    ticks: usize,
    ones: &'static [i64],
}

const ROWS: &[Row] = &[
    Row {
        nested: Nested {
            inner: Inner::Send,
            turns: &[4],
        },
        message: -3,
        ticks: 3,
        ones: &[],
    },
    Row {
        nested: Nested {
            inner: Inner::Send,
            turns: &[4],
        },
        message: 0,
        ticks: 3,
        ones: &[],
    },
    Row {
        nested: Nested {
            inner: Inner::Send,
            turns: &[4],
        },
        message: i64::MIN,
        ticks: 3,
        ones: &[],
    },
    Row {
        nested: Nested {
            inner: Inner::Send,
            turns: &[4],
        },
        message: 3,
        ticks: 12,
        ones: &[3, 3, 3],
    },
    Row {
        nested: Nested {
            inner: Inner::Send,
            turns: &[4],
        },
        message: 9,
        ticks: 15,
        ones: &[9, 9, 9, 9],
    },
    Row {
        nested: Nested {
            inner: Inner::Send,
            turns: &[2, 3],
        },
        message: 2,
        ticks: 21,
        ones: &[2, 2, 2, 2],
    },
    Row {
        nested: Nested {
            inner: Inner::Send,
            turns: &[2, 3],
        },
        message: 5,
        ticks: 30,
        ones: &[5, 5, 5, 5, 5, 5],
    },
    Row {
        nested: Nested {
            inner: Inner::Branch,
            turns: &[],
        },
        message: 1,
        ticks: 8,
        ones: &[1],
    },
    Row {
        nested: Nested {
            inner: Inner::Branch,
            turns: &[],
        },
        message: 2,
        ticks: 7,
        ones: &[],
    },
    Row {
        nested: Nested {
            inner: Inner::Branch,
            turns: &[2],
        },
        message: 1,
        ticks: 11,
        ones: &[1],
    },
    Row {
        nested: Nested {
            inner: Inner::Branch,
            turns: &[2],
        },
        message: 7,
        ticks: 17,
        ones: &[],
    },
];

/// Checks what each handler leaves.
fn judge(rt: &(impl Abort + AllocGlobal), rows: &[Row]) -> Result<(), Fail> {
    for row in rows {
        let done = executed(rt, rt.alloc(), row.nested, row.message)?;
        assert_eq!(rt; done.ticks, row.ticks);
        assert_eq!(rt; done.ones.as_slice(), row.ones);
    }
    Ok(())
}

#[test]
fn handlers_take_their_turns_and_branches(rt: HostRuntime) -> Result<(), Fail> {
    judge(&rt, ROWS)
}

#[test]
fn eight_numbers_are_sent_in_order(rt: HostRuntime) -> Result<(), Fail> {
    let nested = Nested {
        inner: Inner::Eight,
        turns: &[],
    };
    let done = executed(&rt, rt.alloc(), nested, -1)?;
    assert_eq!(rt; done.ticks, 10);
    let Some(all) = done.eight else {
        return Err(Fail::from("not sent"));
    };
    assert_eq!(rt; all.as_slice(), [-1, -1, -1, -1, -1, -1, -1, 1].as_slice());
    Ok(())
}
