//! Tables of names.

use std::test::Fail;
use yt_list::{Name, Names};
use yt_table::{NameSet, NameTable};

#[test]
fn names_keep_their_first_place(rt: HostRuntime) -> Result<(), Fail> {
    let alloc = rt.alloc();
    let mut seen = NameSet::new(alloc);
    assert!(rt; seen.insert(b"run")?);
    assert!(rt; seen.insert(b"walk")?);
    assert!(rt; !seen.insert(b"run")?);
    assert_eq!(rt; seen.insert_full(b"walk")?, (1, false));
    assert_eq!(rt; seen.len(), 2);
    let names = seen.to_names(alloc)?;
    assert_eq!(rt; names.at(0).as_slice(), b"run".as_slice());
    seen.truncate(1);
    assert!(rt; seen.contains(b"run"));
    assert!(rt; !seen.contains(b"walk"));
    Ok(())
}

#[test]
fn the_first_item_of_a_name_is_found(rt: HostRuntime) -> Result<(), Fail> {
    let alloc = rt.alloc();
    let mut names = Names::new(alloc);
    names.push(Name::from_vec(Vec::from_slice(alloc, b"run")?))?;
    names.push(Name::from_vec(Vec::from_slice(alloc, b"run")?))?;
    names.push(Name::from_vec(Vec::from_slice(alloc, b"walk")?))?;
    let table = NameTable::new(alloc, names.as_slice())?;
    assert_eq!(rt; table.find(b"run"), Some(0));
    assert_eq!(rt; table.find(b"walk"), Some(2));
    assert_eq!(rt; table.find(b"stand"), None);
    assert_eq!(rt; table.all().len(), 3);
    Ok(())
}
