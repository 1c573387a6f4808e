//! Waiting jobs in order.
ghost use Rattle.std.specs.Prelude.{◌≡◌, ◌+◌, ◌≤◌, ℕ, ◌<◌, [], length, slice_index_or, true, false, IfOk, MatchOption};
ghost use Rattle.std.specs.List.{Contains};
ghost use Rattle.yt_ready.specs.Order.{comes_before, IsLeast, IsFalling};
ghost use Rattle.yt_order.specs.Falling.{HasOneMore};

use crate::entry::{Entry, comes_before};
use std::alloc::{AllocError, Global};
use std::marker::Model;

/// The jobs that wait for the processor. A contract sees the entries that wait, in an order that it doesn't say, and how many
/// more there is room for.
#[derive(Drop)]
pub struct Ready {
    /// Each entry comes before those in front of it, so the least is the last.
    entries: Vec<Entry>,
}

impl Model for Ready {
    ghost use Rattle.std.specs.Prelude.{◌-◌, vec_len, vec_capacity};
    ghost use Rattle.yt_ready.specs.Order.{IsFalling};
    ghost use Rattle.yt_ready.specs.Waiting.{Waiting};

    ghost Value = { Waiting };

    ghost view = { λ r. record { entries = r.entries.items; spare = vec_capacity r.entries - vec_len r.entries } };

    ghost invariant = { λ r. IsFalling r.entries.items };
}

impl Ready {
    /// A list with no entry and room for `n` of them. All memory is taken here; `Err` comes where it ran out.
    pub fn with_room(alloc: Global, n: usize) -> Result<Self, AllocError>
        ensures { IfOk result (λ ready. ready ≡ record { entries = []; spare = n }) }
    {
        Ok(Ready {
            entries: Vec::with_capacity(alloc, n)?,
        })
    }

    /// How many more entries there is room for.
    pub fn spare(&self) -> usize
        ensures { result ≡ self.now.spare }
    {
        self.entries.capacity() - self.entries.len()
    }

    /// Adds an entry, in constant time where none comes before it, else with as many comparisons as the entries can be halved,
    /// and a move of those that come before it. The caller shows that there is room and that no equal entry waits.
    pub fn push(&mut self, entry: Entry)
        requires room { 1 ≤ self.old.spare }
        requires fresh { Contains self.old.entries entry → ⊥ }
        ensures added { HasOneMore self.old.entries entry self.new.entries }
        ensures spare { self.new.spare + 1 ≡ self.old.spare }
    {
        let place = place_of(&self.entries, &entry);
        // There is room, so this takes no memory and does not fail.
        let _ = self.entries.insert(place, entry);
    }

    /// The entry that none comes before; `None` exactly where no entry waits.
    pub fn least(&self) -> Option<Entry>
        ensures { MatchOption result (self.now.entries ≡ []) (λ entry. IsLeast self.now.entries entry) }
    {
        self.entries.last().copied()
    }

    /// Takes out the entry that none comes before; `None` exactly where no entry waits, and then nothing changes.
    pub fn take_least(&mut self) -> Option<Entry>
        ensures least { MatchOption result (self.old.entries ≡ []) (λ entry. IsLeast self.old.entries entry) }
        ensures taken { MatchOption result (self.new ≡ self.old) (λ entry. HasOneMore self.new.entries entry self.old.entries) }
        ensures spare { MatchOption result (self.new.spare ≡ self.old.spare) (λ _. self.new.spare ≡ self.old.spare + 1) }
    {
        self.entries.pop()
    }
}

/// How many of the entries, each of which comes before those in front of it, this one comes before.
fn place_of(entries: &[Entry], entry: &Entry) -> usize
    requires { IsFalling entries.now }
    ensures bound { result ≤ length entries.now }
    ensures before { (k : ℕ) → k < result → comes_before entry.now (slice_index_or entries.now k entry.now) ≡ true }
    ensures after { (k : ℕ) → result ≤ k → k < length entries.now → comes_before entry.now (slice_index_or entries.now k entry.now) ≡ false }
{
    if let Some(least) = entries.last() {
        if comes_before(entry, least) {
            return entries.len();
        }
    }
    entries.partition_point(|other| comes_before(entry, other))
}
