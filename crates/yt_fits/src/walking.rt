//! The condition on tasks under resources, by one walk.
ghost use Rattle.std.specs.Prelude.{◌≡◌, ◌↔◌, None, IfSome};
ghost use Rattle.yt_set.specs.Tasks.{FitsInterval};
ghost use Rattle.yt_fits.specs.Intervals.{IsFirstBreach};

use crate::dearest::Dearest;
use crate::interval::{Breach, longest};
use crate::walk::Walk;
use yt_set::TaskSet;

/// What [`crate::interval_plain`] answers: the shortest span in which a job that keeps its resource leaves too little room for
/// others, and the lowest task whose job does so in it. `None` comes exactly where none does. Takes no memory.
///
/// The points of all tasks are gone through once, in rising order, and the demand grows with them. Of the tasks alone
/// the dearest is looked at; only where it lacks room the others are too.
pub fn interval_walk(set: &TaskSet) -> Option<Breach>
    ensures some { IfSome result (λ breach. IsFirstBreach set.now breach) }
    ensures none { result ≡ None ↔ FitsInterval set.now }
{
    let longest = longest(set);
    let mut walk = Walk::new(set);
    let mut dearest = Dearest { cost: 0, until: 0 };
    while walk.point + 1 < longest {
        let next = walk.next();
        if let Some(breach) = walk.breach_before(next.number, &mut dearest) {
            return Some(breach);
        }
        if next.number >= longest {
            return None;
        }
        walk.count(next);
    }
    None
}
