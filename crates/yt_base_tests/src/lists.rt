//! Lists.

use std::test::Fail;
use yt_list::{Name, Names, Vals, numbered};

#[test]
fn items_stand_in_order(rt: HostRuntime) -> Result<(), Fail> {
    let alloc = rt.alloc();
    let mut vals = Vals::new(alloc);
    assert!(rt; vals.is_empty());
    vals.push(7)?;
    vals.push(-7)?;
    assert!(rt; !vals.is_empty());
    assert_eq!(rt; vals.len(), 2);
    assert_eq!(rt; *vals.at(1), -7);
    assert_eq!(rt; vals.as_slice(), [7, -7].as_slice());
    let same = Vals::from_vec(vals.into_vec());
    assert_eq!(rt; same.as_slice(), [7, -7].as_slice());
    Ok(())
}

#[test]
fn items_have_numbers_from_1(rt: HostRuntime) -> Result<(), Fail> {
    let values: [i64; 2] = [7, -7];
    assert!(rt; numbered(values.as_slice(), 0).is_none());
    assert_eq!(rt; numbered(values.as_slice(), 1), Some(&7));
    assert_eq!(rt; numbered(values.as_slice(), 2), Some(&-7));
    assert!(rt; numbered(values.as_slice(), 3).is_none());
    Ok(())
}

#[test]
fn lists_stand_in_lists(rt: HostRuntime) -> Result<(), Fail> {
    let alloc = rt.alloc();
    let mut names = Names::new(alloc);
    names.push(Name::from_vec(Vec::from_slice(alloc, b"run")?))?;
    names.push(Name::new(alloc))?;
    assert_eq!(rt; names.at(0).as_slice(), b"run".as_slice());
    assert!(rt; names.at(1).is_empty());
    Ok(())
}
