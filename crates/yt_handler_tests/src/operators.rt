//! What calls operators.

use std::alloc::{AllocError, Global};
use std::test::Fail;
use yt_graph::{NoOps, OpHead, Ops, operator_value};
use yt_list::Name;

/// Operators that give the values of their heads' codes.
#[derive(Drop)]
struct Table {
    heads: Vec<OpHead>,
}

impl Ops for Table {
    ghost known = { λ t. t.heads.items };

    fn heads(&self) -> &[OpHead] {
        &self.heads
    }

    fn call(&self, op: u32, x: i64, y: i64) -> i64 {
        operator_value(self.heads[op as usize - 1].code, x, y)
    }
}

/// The operators `a`, the lesser of two numbers, and `b`, their gap.
fn lesser_and_gap(alloc: Global) -> Result<Table, AllocError> {
    let lesser = OpHead {
        name: Name::from_vec(vec![in alloc; b'a']?),
        args: 2,
        ticks: 2,
        code: 1,
    };
    let gap = OpHead {
        name: Name::from_vec(vec![in alloc; b'b']?),
        args: 2,
        ticks: 3,
        code: 3,
    };
    Ok(Table {
        heads: vec![in alloc; lesser, gap]?,
    })
}

/// The value of the operator of this number, if there is one.
fn value<O: Ops>(ops: &O, op: u32, x: i64, y: i64) -> Option<i64> {
    let count = ops.heads().len();
    if op < 1 || op as usize > count {
        return None;
    }
    Some(ops.call(op, x, y))
}

#[test]
fn operators_are_numbered_from_1(rt: HostRuntime) -> Result<(), Fail> {
    let table = lesser_and_gap(rt.alloc())?;
    assert_eq!(rt; value(&table, 0, 3, -4), None);
    assert_eq!(rt; value(&table, 1, 3, -4), Some(-4));
    assert_eq!(rt; value(&table, 2, 3, -4), Some(7));
    assert_eq!(rt; value(&table, 3, 3, -4), None);
    Ok(())
}

#[test]
fn no_operators_have_no_heads(rt: HostRuntime) -> Result<(), Fail> {
    assert!(rt; NoOps.heads().is_empty());
    assert_eq!(rt; value(&NoOps, 0, 3, -4), None);
    assert_eq!(rt; value(&NoOps, 1, 3, -4), None);
    assert_eq!(rt; NoOps.call(1, 3, -4), 0);
    Ok(())
}
