//! Tables of operators: their heads, what they answer, and what they refuse.
ghost use Rattle.std.specs.Prelude.{◌≡◌, IfOk};
ghost use Rattle.yt_graph.specs.Operators.{IsNamedHead};

use std::alloc::Global;
use std::process::Abort;
use std::test::Fail;
use yt_graph::{OpHead, Ops, is_name, operator_value};
use yt_list::Name;
use yt_ops::{MOST_OPS, OpBody, OpCause, OpTable};

/// An operator's name, and how many numbers it takes, how many ticks, and its code.
type HeadRow = (&'static str, u32, u32, u32);

/// The number of an operator, two numbers, and its value; `None` where there is no operator of the number.
type ValueRow = (u32, i64, i64, Option<i64>);

/// An operator of this name is refused for this cause.
type RefusedRow = (&'static str, OpCause);

/// Each code once.
const FIVE: &[HeadRow] = &[
    ("lesser", 2, 1, 1),
    ("greater", 2, 7, 2),
    ("gap", 2, 1000, 3),
    ("size_of_a_number_that_has_a_sign", 1, 5, 4),
    ("_", 1, 2, 5),
];

const VALUES_OF_FIVE: &[ValueRow] = &[
    (0, 3, -4, None),
    (1, 3, -4, Some(-4)),
    (1, -4, 3, Some(-4)),
    (2, 3, -4, Some(3)),
    (2, i64::MIN, i64::MAX, Some(i64::MAX)),
    (3, 3, -4, Some(7)),
    (3, -4, 3, Some(7)),
    (3, i64::MIN, i64::MAX, Some(-1)),
    (4, -4, 0, Some(4)),
    (4, 4, 0, Some(4)),
    (4, i64::MIN, 0, Some(i64::MIN)),
    (5, -4, 0, Some(-1)),
    (5, 0, 0, Some(0)),
    (5, 4, 0, Some(1)),
    (6, 3, -4, None),
    (u32::MAX, 3, -4, None),
];

const REFUSED_OF_FIVE: &[RefusedRow] = &[
    ("lesser", OpCause::Twice),
    ("_", OpCause::Twice),
    ("gap", OpCause::Twice),
];

/// As many operators as a table has at most.
const FULL: &[HeadRow] = &[
    ("o00", 2, 1, 1),
    ("o01", 2, 2, 2),
    ("o02", 2, 3, 3),
    ("o03", 1, 4, 4),
    ("o04", 1, 5, 5),
    ("o05", 2, 6, 1),
    ("o06", 2, 7, 2),
    ("o07", 2, 8, 3),
    ("o08", 1, 9, 4),
    ("o09", 1, 10, 5),
    ("o10", 2, 11, 1),
    ("o11", 2, 12, 2),
    ("o12", 2, 13, 3),
    ("o13", 1, 14, 4),
    ("o14", 1, 15, 5),
    ("o15", 2, 16, 1),
    ("o16", 2, 17, 2),
    ("o17", 2, 18, 3),
    ("o18", 1, 19, 4),
    ("o19", 1, 20, 5),
    ("o20", 2, 21, 1),
    ("o21", 2, 22, 2),
    ("o22", 2, 23, 3),
    ("o23", 1, 24, 4),
    ("o24", 1, 25, 5),
    ("o25", 2, 26, 1),
    ("o26", 2, 27, 2),
    ("o27", 2, 28, 3),
    ("o28", 1, 29, 4),
    ("o29", 1, 30, 5),
    ("o30", 2, 31, 1),
    ("o31", 2, 32, 2),
];

const VALUES_OF_FULL: &[ValueRow] = &[
    (1, 3, -4, Some(-4)),
    (31, 3, -4, Some(-4)),
    (32, 3, -4, Some(3)),
    (33, 3, -4, None),
];

/// A name that is there counts before the room.
const REFUSED_OF_FULL: &[RefusedRow] = &[
    ("o00", OpCause::Twice),
    ("o31", OpCause::Twice),
    ("o32", OpCause::Full),
    ("o", OpCause::Full),
];

/// The head of a row that is within its ranges.
fn head_of(alloc: Global, row: &HeadRow) -> Result<OpHead, Fail>
    ensures named { IfOk result IsNamedHead }
    ensures code { IfOk result (λ head. head.code ≡ row.now.3) }
{
    let (name, args, ticks, code) = *row;
    let fine = (1..3).contains(&args) && (1..1001).contains(&ticks) && (1..6).contains(&code);
    if !fine || !is_name(name.as_bytes()) {
        return Err("no head".into());
    }
    Ok(OpHead {
        name: Name::from_vec(Vec::from_slice(alloc, name.as_bytes())?),
        args,
        ticks,
        code,
    })
}

/// The value of the operator of this number, where there is one.
fn value<O: Ops>(ops: &O, op: u32, x: i64, y: i64) -> Option<i64> {
    let count = ops.heads().len();
    if op < 1 || op as usize > count {
        return None;
    }
    Some(ops.call(op, x, y))
}

/// Checks the heads and the values of a table.
fn judge_table(
    rt: &(impl Abort + AllocGlobal),
    table: &OpTable,
    heads: &[HeadRow],
    values: &[ValueRow],
) {
    assert_eq!(rt; table.heads().len(), heads.len());
    for (head, (name, args, ticks, code)) in table.heads().iter().zip(heads) {
        assert_eq!(rt; head.name.as_slice(), name.as_bytes());
        assert_eq!(rt;
            (head.args, head.ticks, head.code),
            (*args, *ticks, *code),
            "at {name}"
        );
    }
    for (op, x, y, expected) in values {
        assert_eq!(rt; value(table, *op, *x, *y), *expected, "at {op} {x} {y}");
    }
}

/// Checks the table of these operators, each beside a closure that gives the values of its code; that it refuses others, and hands all
/// back; and that it is the same then.
fn judge(
    rt: &(impl Abort + AllocGlobal),
    heads: &[HeadRow],
    values: &[ValueRow],
    refused: &[RefusedRow],
) -> Result<(), Fail> {
    let alloc = rt.alloc();
    let mut table = OpTable::new(alloc);
    for row in heads {
        let code = row.3;
        let body: OpBody = Box::new(alloc, move |x: i64, y: i64| operator_value(code, x, y))?;
        table = match table.add(head_of(alloc, row)?, body) {
            Ok(table) => table,
            Err(_) => return Err("an operator is refused".into()),
        };
    }
    judge_table(rt, &table, heads, values);
    for (name, cause) in refused {
        let body: OpBody = Box::new(alloc, |x: i64, _y: i64| x.signum())?;
        table = match table.add(head_of(alloc, &(name, 1, 9, 5))?, body) {
            Ok(_) => return Err("an operator too many is taken".into()),
            Err(refused) => {
                assert_eq!(rt; refused.cause, *cause, "at {name}");
                assert_eq!(rt; refused.head.name.as_slice(), name.as_bytes());
                assert_eq!(rt; (refused.body)(-7, 0), -1);
                refused.table
            }
        };
        judge_table(rt, &table, heads, values);
    }
    Ok(())
}

#[test]
fn a_table_answers_by_its_closures(rt: HostRuntime) -> Result<(), Fail> {
    judge(&rt, FIVE, VALUES_OF_FIVE, REFUSED_OF_FIVE)
}

#[test]
fn a_table_has_32_operators_at_most(rt: HostRuntime) -> Result<(), Fail> {
    assert_eq!(rt; MOST_OPS, 32);
    judge(&rt, FULL, VALUES_OF_FULL, REFUSED_OF_FULL)
}

#[test]
fn a_new_table_has_no_operator(rt: HostRuntime) -> Result<(), Fail> {
    judge(&rt, &[], &[(0, 3, -4, None), (1, 3, -4, None)], &[])
}
