//! A walk through the points at which a job more can be due.
ghost use Rattle.std.specs.Prelude.{◌≡◌, ℕ, ◌+◌, ◌<◌, ◌≤◌, None, IfSome, length};
ghost use Rattle.std.specs.List.{All};
ghost use Rattle.yt_set.specs.Limits.{most_ticks};
ghost use Rattle.yt_fits.specs.Intervals.{HaveRoom, IsFirstBreach};
ghost use Rattle.yt_fits.specs.Inside.Streams.{next_of, AreStreamsOf};
ghost use Rattle.yt_fits.specs.Inside.Tournaments.{IsPlayed, never, number_at};
ghost use Rattle.yt_fits.specs.Inside.Walks.{IsAt, IsDearest, stream_at};

use crate::dearest::Dearest;
use crate::interval::{Breach, breach_in};
use crate::stream::{Stream, streams_of};
use crate::tournament::{Entrant, Tournament};
use arrayvec::ArrayVec;
use yt_set::{MOST_TASKS, TaskSet};

/// A walk through the points of all tasks in rising order, those of one stream after another where they are the same.
#[derive(Drop)]
pub(crate) struct Walk<'a> {
    set: &'a TaskSet,
    streams: ArrayVec<Stream, MOST_TASKS>,
    /// The next point of each stream, at its place.
    nexts: Tournament,
    /// What the jobs cost that are counted.
    demand: u64,
    /// The last point of which a stream's jobs were counted; 0 before the first.
    pub point: u64,
}

impl<'a> Walk<'a> {
    /// A walk that stands before the first point.
    pub(crate) fn new(set: &'a TaskSet) -> Self
        ensures set { result.set.now ≡ set.now }
        ensures at { IsAt set.now result.streams.items result.nexts.nodes result.demand result.point }
        ensures point { result.point ≡ 0 }
    {
        let streams = streams_of(set);
        let nexts = nexts_of(streams.as_slice());
        Walk {
            set,
            streams,
            nexts,
            demand: 0,
            point: 0,
        }
    }

    /// The next point, and the place of a stream that has it.
    pub(crate) fn next(&self) -> Entrant
        requires { IsAt self.now.set.now self.now.streams.items self.now.nexts.nodes self.now.demand self.now.point }
        ensures least { All (λ stream. result.number ≤ next_of stream) self.now.streams.items }
        ensures later { self.now.point ≤ result.number }
        ensures within { result.number < never → result.place < length self.now.streams.items }
        ensures there { result.number < never → result.number ≡ next_of (stream_at self.now.streams.items result.place) }
    {
        self.nexts.least()
    }

    /// The first breach, where it is in a span that is longer than the point and no longer than the next.
    pub(crate) fn breach_before(&self, next: u64, dearest: &mut Dearest) -> Option<Breach>
        requires at { IsAt self.now.set.now self.now.streams.items self.now.nexts.nodes self.now.demand self.now.point }
        requires least { All (λ stream. next ≤ next_of stream) self.now.streams.items }
        requires short { self.now.point + 1 ≤ most_ticks }
        requires rooms { (span : ℕ) → span ≤ self.now.point → HaveRoom self.now.set.now span self.now.set.now }
        requires dearest { IsDearest self.now.set.now (self.now.point + 1) dearest.old }
        requires cost { dearest.old.cost ≤ most_ticks }
        ensures some { IfSome result (λ breach. IsFirstBreach self.now.set.now breach) }
        ensures none { result ≡ None → (span : ℕ) → span ≤ next → HaveRoom self.now.set.now span self.now.set.now }
        ensures dearest { IsDearest self.now.set.now (self.now.point + 1) dearest.new }
        ensures cost { dearest.new.cost ≤ most_ticks }
    {
        let span = self.point + 1;
        if next < span {
            return None;
        }
        dearest.renew(self.set, span);
        if self.demand + dearest.cost <= span {
            return None;
        }
        breach_in(self.set, span)
    }

    /// Counts a job more of each task of the stream that is next.
    pub(crate) fn count(&mut self, next: Entrant)
        requires at { IsAt self.old.set.now self.old.streams.items self.old.nexts.nodes self.old.demand self.old.point }
        requires least { All (λ stream. next.number ≤ next_of stream) self.old.streams.items }
        requires later { self.old.point ≤ next.number }
        requires short { next.number ≤ most_ticks }
        requires within { next.place < length self.old.streams.items }
        requires there { next.number ≡ next_of (stream_at self.old.streams.items next.place) }
        ensures at { IsAt self.new.set.now self.new.streams.items self.new.nexts.nodes self.new.demand self.new.point }
        ensures set { self.new.set.now ≡ self.old.set.now }
        ensures point { self.new.point ≡ next.number }
        ensures more { self.old.demand < self.new.demand }
    {
        let mut stream = self.streams[next.place];
        stream.jobs += 1;
        self.streams[next.place] = stream;
        self.nexts.put(next.place, stream.next());
        self.demand += stream.cost;
        self.point = next.number;
    }
}

/// The next point of each stream, at its place, and the greatest number at the places behind them.
fn nexts_of(streams: &[Stream]) -> Tournament
    requires few { length streams.now ≤ 64 }
    requires short { All (λ stream. stream.period ≤ most_ticks) streams.now }
    requires due { All (λ stream. stream.within ≤ most_ticks) streams.now }
    requires none { All (λ stream. stream.jobs ≡ 0) streams.now }
    ensures played { IsPlayed result.nodes }
    ensures nexts { (place : ℕ) → place < length streams.now → number_at result.nodes place ≡ next_of (stream_at streams.now place) }
    ensures rest { (place : ℕ) → length streams.now ≤ place → place < 64 → number_at result.nodes place ≡ never }
{
    let mut nexts = Tournament::new();
    for place in 0..streams.len() {
        nexts.put(place, streams[place].next());
    }
    nexts
}
