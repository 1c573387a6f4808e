//! Whether sets fit, by their load and by the room that jobs leave.
use crate::fixtures::{TaskRow, set_of};
use std::alloc::Global;
use std::process::Abort;
use std::test::Fail;
use yt_fits::{Breach, LoadSum, Unfit, fits, interval_plain};

/// Whether tasks of cost 1 and these periods fit.
fn answer(alloc: Global, periods: &[u64]) -> Result<Result<LoadSum, Unfit>, Fail> {
    let mut tasks = Vec::new(alloc);
    for period in periods {
        tasks.push((1, *period, 0))?;
    }
    Ok(fits(&set_of(alloc, &tasks)?))
}

#[test]
fn multiples_up_to_a_hundred_bits_are_told(rt: HostRuntime) -> Result<(), Fail> {
    let alloc = rt.alloc();
    let none = LoadSum { part: 0, whole: 1 };
    assert_eq!(rt; answer(alloc, &[])?, Ok(none));

    // 2^100 - 1 is the product of these, which have no common divisors.
    let just = [3, 125, 11, 31, 41, 101, 251, 601, 1801, 4051, 8101, 268_501];
    assert_eq!(rt;
        answer(alloc, &just)?.map(|sum| sum.whole),
        Ok((1 << 100) - 1)
    );

    // The product of these is 2^100 + 426.
    let past = [2, 13, 17, 43, 37_529, 103_391, 124_123, 194_167, 713_233, 1];
    assert_eq!(rt; answer(alloc, &past)?, Err(Unfit::Hyperperiod(9)));
    let long = [999_995, 999_996, 999_997, 999_998, 999_999, 1_000_000];
    assert_eq!(rt; answer(alloc, &long)?, Err(Unfit::Hyperperiod(6)));
    Ok(())
}

#[test]
fn loads_up_to_the_whole_fit(rt: HostRuntime) -> Result<(), Fail> {
    for (first, second, expected) in [
        ((5, 10), (10, 20), Ok((20, 20))),
        ((5, 10), (11, 20), Err((21, 20))),
        (
            (1_000_000, 999_999),
            (1, 1_000_000),
            Err((1_000_000_999_999, 999_999_000_000)),
        ),
        ((1, 6), (1, 4), Ok((5, 12))),
    ] {
        let tasks = [(first.0, first.1, 0), (second.0, second.1, 0)];
        let sides = match fits(&set_of(rt.alloc(), tasks.as_slice())?) {
            Ok(sum) => Ok((sum.part, sum.whole)),
            Err(Unfit::Overload(sum)) => Err((sum.part, sum.whole)),
            Err(_) => return Err("another reason".into()),
        };
        assert_eq!(rt; sides, expected);
    }
    Ok(())
}

/// Three tasks, and where the first of them lacks room: the task, the span and the need.
type IntervalRow = ([TaskRow; 3], Option<(u32, u64, u128)>);

const INTERVALS: [IntervalRow; 7] = [
    ([(1, 4, 1), (5, 20, 1), (1, 20, 0)], Some((2, 5, 6))),
    ([(1, 4, 1), (4, 20, 1), (1, 20, 0)], None),
    ([(3, 6, 0), (1, 5, 1), (5, 30, 1)], Some((3, 7, 9))),
    ([(2, 5, 0), (1, 8, 1), (4, 40, 1)], None),
    ([(1, 4, 1), (5, 20, 1), (5, 20, 1)], Some((2, 5, 6))),
    ([(1, 4, 1), (5, 20, 2), (5, 20, 3)], None),
    ([(1, 4, 0), (5, 20, 0), (5, 20, 0)], None),
];

/// Checks where each set lacks room.
fn judge_intervals(rt: &(impl Abort + AllocGlobal), rows: &[IntervalRow]) -> Result<(), Fail> {
    for (tasks, expected) in rows {
        let set = set_of(rt.alloc(), tasks.as_slice())?;
        let breach = expected.map(|(task, len, need)| Breach { task, len, need });
        assert_eq!(rt; interval_plain(&set), breach);
        assert_eq!(rt; fits(&set).err(), breach.map(Unfit::Interval));
    }
    Ok(())
}

#[test]
fn a_span_without_room_is_found(rt: HostRuntime) -> Result<(), Fail> {
    let rows = INTERVALS;
    judge_intervals(&rt, rows.as_slice())
}
