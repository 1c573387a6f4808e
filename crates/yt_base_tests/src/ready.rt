//! Jobs that wait, in order of urgency.

use std::test::Fail;
use yt_ready::{Entry, Ready};

const FIRST: Entry = Entry {
    deadline: 10,
    begun: true,
    arrival: 9,
    task: 9,
    number: 9,
};

const SECOND: Entry = Entry {
    deadline: 10,
    begun: false,
    arrival: 3,
    task: 2,
    number: 1,
};

const THIRD: Entry = Entry {
    deadline: 11,
    begun: true,
    arrival: 0,
    task: 1,
    number: 1,
};

#[test]
fn the_least_goes_first(rt: HostRuntime) -> Result<(), Fail> {
    let mut ready = Ready::with_room(rt.alloc(), 3)?;
    ready.push(SECOND);
    ready.push(THIRD);
    ready.push(FIRST);
    assert_eq!(rt; ready.spare(), 0);
    assert_eq!(rt; ready.take_least(), Some(FIRST));
    assert_eq!(rt; ready.least(), Some(SECOND));
    assert_eq!(rt; ready.take_least(), Some(SECOND));
    assert_eq!(rt; ready.take_least(), Some(THIRD));
    assert_eq!(rt; ready.take_least(), None);
    assert_eq!(rt; ready.least(), None);
    assert_eq!(rt; ready.spare(), 3);
    Ok(())
}
