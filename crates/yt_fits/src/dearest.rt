//! The dearest job that can keep its resource in a span.
ghost use Rattle.std.specs.Prelude.{◌≡◌, ◌+◌, ◌<◌, ◌≤◌, ◌↔◌, IsTrue};
ghost use Rattle.std.specs.List.{All};
ghost use Rattle.yt_set.specs.Limits.{most_ticks};
ghost use Rattle.yt_set.specs.Tasks.{within};
ghost use Rattle.yt_fits.specs.Inside.Streams.{IsInRange};
ghost use Rattle.yt_fits.specs.Inside.Walks.{IsDearest};

use yt_set::{Task, TaskSet};

/// What the dearest job costs that can keep its resource, and up to which span.
///
/// Which jobs can keep their resources in a span changes at most where a first job of some task is due.
#[derive(Clone, Copy)]
pub(crate) struct Dearest {
    /// The cost.
    pub cost: u64,
    /// The last span of which this is known.
    pub until: u64,
}

impl Dearest {
    /// The dearest job in a span, and in those after it up to the next in which a first job is due.
    pub(crate) fn of(set: &TaskSet, span: u64) -> Self
        ensures dearest { IsDearest set.now span result }
        ensures until { span ≤ result.until }
        ensures cost { result.cost ≤ most_ticks }
    {
        Dearest {
            cost: dearest_cost(set, span),
            until: next_within(set, span),
        }
    }

    /// Looks for the dearest job anew where a span is past the last of which it is known.
    pub(crate) fn renew(&mut self, set: &TaskSet, span: u64)
        requires dearest { IsDearest set.now span self.old }
        requires cost { self.old.cost ≤ most_ticks }
        ensures dearest { IsDearest set.now span self.new }
        ensures until { span ≤ self.new.until }
        ensures cost { self.new.cost ≤ most_ticks }
    {
        if self.until < span {
            *self = Dearest::of(set, span);
        }
    }
}

/// What the dearest job costs that can keep its resource in a span; 0 where none can.
fn dearest_cost(set: &TaskSet, span: u64) -> u64
    ensures dearest { All (λ task. IsInRange set.now span task → task.cost ≤ result) set.now }
    ensures cost { result ≤ most_ticks }
{
    let mut cost = 0;
    for n in 0..set.len() {
        cost = dearer(set, span, set.task(n + 1), cost);
    }
    cost
}

/// What the dearer costs, a task that can keep its resource in a span or what costs so much.
fn dearer(set: &TaskSet, span: u64, task: Task, cost: u64) -> u64
    ensures task { IsInRange set.now span task → task.cost ≤ result }
    ensures cost { cost ≤ result }
    ensures bound { task.cost ≤ most_ticks → cost ≤ most_ticks → result ≤ most_ticks }
{
    if task.cost > cost && is_in_range(set, span, task) {
        task.cost
    } else {
        cost
    }
}

/// Whether a job of a task can keep its resource in a span.
fn is_in_range(set: &TaskSet, span: u64, task: Task) -> bool
    ensures { IsTrue result ↔ IsInRange set.now span task }
{
    span < task.within() && set.floor(task.resource).is_some_and(|floor| floor < span)
}

/// The least time from an arrival to a deadline that isn't shorter than a span; the greatest number where each is shorter.
fn next_within(set: &TaskSet, span: u64) -> u64
    ensures later { span ≤ result }
    ensures least { All (λ task. span ≤ within task → result ≤ within task) set.now }
{
    let mut next = u64::MAX;
    for n in 0..set.len() {
        next = nearer(span, set.task(n + 1), next);
    }
    next
}

/// The lesser of what comes next and a task's time to its deadline, where this isn't shorter than a span.
fn nearer(span: u64, task: Task, next: u64) -> u64
    ensures task { span ≤ within task → result ≤ within task }
    ensures next { result ≤ next }
    ensures later { span ≤ next → span ≤ result }
{
    let within = task.within();
    if span <= within {
        within.min(next)
    } else {
        next
    }
}
