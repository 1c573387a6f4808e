//! Tasks whose jobs are due at the same points, taken together.
ghost use Rattle.std.specs.Prelude.{◌≡◌, ℕ, ◌*◌, ◌+◌, ◌<◌, ◌≤◌, ◌↔◌, ◌∷◌, ◌++◌, [], List, IfSome, IsTrue, length};
ghost use Rattle.std.specs.List.{All};
ghost use Rattle.yt_set.specs.declared.task.Task.{Task};
ghost use Rattle.yt_set.specs.Limits.{most_ticks};
ghost use Rattle.yt_set.specs.Tasks.{IsTask, IsTaskSet, within};
ghost use Rattle.yt_fits.specs.Inside.Streams.{AreStreamsOf, IsPaced, next_of};
ghost use Rattle.yt_fits.specs.Inside.Walks.{stream_at};

use arrayvec::ArrayVec;
use yt_set::{MOST_TASKS, Task, TaskSet};

/// Tasks whose jobs are due at the same points, and how many jobs of each are counted.
#[derive(Clone, Copy, Default)]
pub(crate) struct Stream {
    /// What a job of each costs, all together.
    pub cost: u64,
    /// The period of each.
    pub period: u64,
    /// How many ticks after its arrival a job of theirs is due.
    pub within: u64,
    /// How many jobs of each are counted.
    pub jobs: u64,
}

impl Stream {
    /// A task alone, of which no job is counted.
    fn of(task: Task) -> Self
        ensures cost { result.cost ≡ task.cost }
        ensures period { result.period ≡ task.period }
        ensures within { result.within ≡ within task }
        ensures jobs { result.jobs ≡ 0 }
    {
        Stream {
            cost: task.cost,
            period: task.period,
            within: task.within(),
            jobs: 0,
        }
    }

    /// The least span in which a job more than those that are counted can be due.
    pub(crate) fn next(self) -> u64
        requires jobs { self.jobs ≤ 2000000 }
        requires period { self.period ≤ most_ticks }
        requires within { self.within ≤ most_ticks }
        ensures { result ≡ next_of self }
    {
        self.jobs * self.period + self.within
    }

    /// Whether a task's jobs are due at the same points.
    fn is_of(self, task: Task) -> bool
        ensures { IsTrue result ↔ ((self.period ≡ task.period) × (self.within ≡ within task)) }
    {
        self.period == task.period && self.within == task.within()
    }
}

/// The streams of all tasks, of which no job is counted.
pub(crate) fn streams_of(set: &TaskSet) -> ArrayVec<Stream, MOST_TASKS>
    ensures streams { AreStreamsOf set.now result.items }
    ensures none { All (λ stream. stream.jobs ≡ 0) result.items }
    ensures in_range { IsTaskSet set.now }
{
    let mut streams = ArrayVec::new();
    for n in 0..set.len() {
        join(&mut streams, set.task(n + 1));
    }
    streams
}

/// Takes a task into its stream, which is a new one where there is none.
fn join(streams: &mut ArrayVec<Stream, MOST_TASKS>, task: Task)
    requires task { IsTask task }
    requires room { length streams.old.items < 64 }
    requires cheap { All (λ stream. stream.cost ≤ 64000000) streams.old.items }
    ensures streams { (tasks : List Task) → AreStreamsOf tasks streams.old.items → AreStreamsOf (tasks ++ task ∷ []) streams.new.items }
    ensures none { All (λ stream. stream.jobs ≡ 0) streams.old.items → All (λ stream. stream.jobs ≡ 0) streams.new.items }
{
    match place_of(streams.as_slice(), task) {
        Some(place) => streams[place].cost += task.cost,
        None => streams.push(Stream::of(task)),
    }
}

/// The place from 0 of a task's stream, if there is one.
fn place_of(streams: &[Stream], task: Task) -> Option<usize>
    ensures within { IfSome result (λ place. place < length streams.now) }
    ensures period { IfSome result (λ place. (stream_at streams.now place).period ≡ task.period) }
    ensures due { IfSome result (λ place. (stream_at streams.now place).within ≡ within task) }
{
    for place in 0..streams.len() {
        if streams[place].is_of(task) {
            return Some(place);
        }
    }
    None
}
