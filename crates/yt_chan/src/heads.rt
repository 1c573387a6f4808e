//! Which target's message is due next.
ghost use Rattle.std.specs.Prelude.{◌≡◌, ◌≢◌, ◌⊎◌, [], IfOk, MatchOption};
ghost use Rattle.std.specs.List.{Contains};
ghost use Rattle.yt_chan.specs.declared.heads.Head.{Head};
ghost use Rattle.yt_order.specs.Falling.{HasOneMore};
ghost use Rattle.yt_chan.specs.Inside.Heads.{comes_before, target_before, HasAlso, IsFalling, IsFirst, IsPlaceFor, IsWithin};

use crate::limits::{MOST_OUTPUTS, MOST_PORTS};
use crate::target::Arrived;
use std::alloc::{AllocError, Global};
use std::marker::Model;

/// How many heads there are at most: one for each number of a port and of an output, with 0.
const ROOM: usize = MOST_PORTS as usize + 1 + MOST_OUTPUTS as usize + 1;

/// A target for which a message waits, and the tick at which the first of its messages is due.
#[derive(Clone, Copy)]
pub(crate) struct Head {
    pub(crate) time: u64,
    pub(crate) target: Arrived,
}

/// The heads of the targets for which a message waits. A contract sees the list of them, in an order that it doesn't say.
#[derive(Drop)]
pub(crate) struct Heads {
    /// Each head comes before those in front of it, so the first of them is the last in the list.
    heads: Vec<Head>,
}

impl Model for Heads {
    ghost use Rattle.std.specs.Prelude.{List, ◌≤◌, vec_capacity};
    ghost use Rattle.yt_chan.specs.declared.heads.Head.{Head};
    ghost use Rattle.yt_chan.specs.Limits.{most_targets};
    ghost use Rattle.yt_chan.specs.Inside.Heads.{AreApart, IsFalling};

    ghost Value = { List Head };

    ghost view = { λ h. h.heads.items };

    ghost invariant = { λ h. IsFalling h.heads.items × AreApart h.heads.items × (most_targets ≤ vec_capacity h.heads) };
}

impl Heads {
    /// No heads, and room for one of each target. All memory is taken here; `Err` comes where it ran out.
    pub(crate) fn new(alloc: Global) -> Result<Self, AllocError>
        ensures { IfOk result (λ heads. heads ≡ []) }
    {
        Ok(Heads {
            heads: Vec::with_capacity(alloc, ROOM)?,
        })
    }

    /// Adds a head where it isn't there yet: as many comparisons as the heads can be halved, and a move of those that come before
    /// it. The caller shows that there is no other head of its target.
    pub(crate) fn add(&mut self, head: Head)
        requires within { IsWithin head.target }
        requires one { (other : Head) → Contains self.old other → other.target ≡ head.target → other ≡ head }
        ensures { HasAlso self.old head self.new }
    {
        let Some(place) = place_for(&self.heads, &head) else {
            return;
        };
        // There is room, so this takes no memory and does not fail.
        let _ = self.heads.insert(place, head);
    }

    /// The head that none comes before; `None` exactly where there is none.
    pub(crate) fn first(&self) -> Option<Head>
        ensures { MatchOption result (self.now ≡ []) (λ head. IsFirst self.now head) }
    {
        self.heads.last().copied()
    }

    /// Takes out the head that none comes before where its message is due at `now`; else nothing changes.
    pub(crate) fn take_due(&mut self, now: u64) -> Option<Head>
        ensures due { MatchOption result ((self.old ≡ []) ⊎ ((first : Head) × IsFirst self.old first × (first.time ≢ now))) (λ head. IsFirst self.old head × (head.time ≡ now)) }
        ensures taken { MatchOption result (self.new ≡ self.old) (λ head. HasOneMore self.new head self.old) }
    {
        let head = self.first()?;
        if head.time != now {
            return None;
        }
        self.heads.pop()
    }
}

/// Whether a head comes before another: by its tick, then by its target.
#[tactic(auto, unfolding(crate::specs::Inside::Heads::comes_before))]
fn comes_before(a: &Head, b: &Head) -> bool
    ensures { result ≡ comes_before a.now b.now }
{
    if a.time != b.time {
        return a.time < b.time;
    }
    target_before(a.target, b.target)
}

/// Whether a target comes before another: ports by number before outputs by number.
#[tactic(auto, unfolding(crate::specs::Inside::Heads::target_before))]
fn target_before(a: Arrived, b: Arrived) -> bool
    ensures { result ≡ target_before a b }
{
    match (a, b) {
        (Arrived::Port(a), Arrived::Port(b)) => a < b,
        (Arrived::Port(_), Arrived::Output(_)) => true,
        (Arrived::Output(_), Arrived::Port(_)) => false,
        (Arrived::Output(a), Arrived::Output(b)) => a < b,
    }
}

/// The place at which a head is to be put among heads, each of which comes before those in front of it; `None` where it is there.
fn place_for(heads: &[Head], head: &Head) -> Option<usize>
    requires { IsFalling heads.now }
    ensures { MatchOption result (Contains heads.now head.now) (λ place. IsPlaceFor heads.now head.now place) }
{
    let place = heads.partition_point(|other| comes_before(head, other));
    // The one at the place isn't one that this one comes before: where it doesn't come before it either, it is the same.
    if place < heads.len() && !comes_before(&heads[place], head) {
        return None;
    }
    Some(place)
}
