//! Plans that are legal or not, and their horizons.
use crate::fixtures::{JobRow, plan_of, set_of};
use std::process::Abort;
use std::test::Fail;

/// Jobs, and whether they are a legal plan.
const PLANS: &[(&[JobRow], bool)] = &[
    (&[], true),
    (&[(1, 1, 0, 5), (2, 1, 0, 3), (1, 2, 10, 1)], true),
    (&[(1, 1, 0, 5), (2, 1, 0, 3), (1, 2, 9, 1)], false),
    (&[(2, 1, 5, 3), (1, 1, 6, 5), (2, 2, 24, 3)], false),
    (&[(2, 1, 5, 3), (1, 1, 6, 5), (2, 2, 25, 3)], true),
    (&[(1, 2, 0, 5)], false),
    (&[(1, 1, 0, 5), (1, 1, 10, 5)], false),
    (&[(1, 0, 0, 5)], false),
    (&[(1, 1, 0, 6)], false),
    (&[(1, 1, 0, 0)], false),
    (&[(0, 1, 0, 1)], false),
    (&[(3, 1, 0, 1)], false),
    (&[(1, 1, 8_000_000, 1)], true),
    (&[(1, 1, 8_000_001, 1)], false),
];

/// Checks whether each plan is legal.
fn judge_plans(rt: &(impl Abort + AllocGlobal), rows: &[(&[JobRow], bool)]) -> Result<(), Fail> {
    let alloc = rt.alloc();
    let set = set_of(alloc, &[(5, 10, 0), (3, 20, 0)])?;
    for (jobs, expected) in rows {
        let plan = plan_of(alloc, jobs)?;
        assert_eq!(rt; plan.legal(&set), *expected);
    }
    Ok(())
}

#[test]
fn plans_are_legal_or_not(rt: HostRuntime) -> Result<(), Fail> {
    judge_plans(&rt, PLANS)
}

#[test]
fn the_horizon_is_the_greatest_deadline(rt: HostRuntime) -> Result<(), Fail> {
    let alloc = rt.alloc();
    let set = set_of(alloc, &[(5, 10, 0), (3, 20, 0)])?;
    let plan = plan_of(alloc, &[(2, 1, 3, 1), (1, 1, 4, 1)])?;
    let legal = plan.legal(&set);
    assert!(rt; legal);
    if legal {
        assert_eq!(rt; plan.horizon(&set), 23);
    }
    Ok(())
}
