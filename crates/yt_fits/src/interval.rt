//! The condition on tasks under resources.
ghost use Rattle.std.specs.Prelude.{◌≡◌, ◌+◌, ◌-◌, ◌*◌, ◌/◌, ◌<◌, ◌≤◌, ◌↔◌, None, IfSome, IsTrue, length};
ghost use Rattle.std.specs.List.{All};
ghost use Rattle.yt_set.specs.Limits.{most_tasks, most_ticks};
ghost use Rattle.yt_set.specs.Tasks.{FitsInterval, LacksRoom, demand_bound, jobs_due, within};
ghost use Rattle.yt_fits.specs.Intervals.{HaveRoom, IsFirstBreach, IsLowestBreach};

use yt_set::{Task, TaskSet};

/// A span in which a job that keeps its resource leaves too little room for others.
#[derive(Clone, Copy, Debug, PartialEq, Eq)]
pub struct Breach {
    /// The job's task, by its number from 1.
    pub task: u32,
    /// The length of the span in ticks.
    pub len: u64,
    /// The ticks that can be asked for in it.
    pub need: u128,
}

/// The shortest span in which a job that keeps its resource leaves too little room for others, and the lowest task whose job
/// does so in it. `None` comes exactly where none does. Takes no memory.
///
/// What is asked for grows where a job more can be due, so only the spans that are a tick longer than such a point are tried.
pub fn interval_plain(set: &TaskSet) -> Option<Breach>
    ensures some { IfSome result (λ breach. IsFirstBreach set.now breach) }
    ensures none { result ≡ None ↔ FitsInterval set.now }
{
    // Tells the proof that the set is in range.
    prove!(set.len() <= 64);
    let longest = longest(set);
    let mut point = 0;
    while point + 1 < longest {
        if let Some(breach) = breach_in(set, point + 1) {
            return Some(breach);
        }
        point = next_point(set, point, longest);
    }
    None
}

/// The longest time from an arrival to a deadline of a task under a resource; 0 where no task is.
pub(crate) fn longest(set: &TaskSet) -> u64
    ensures longest { All (λ task. 1 ≤ task.resource → within task ≤ result) set.now }
    ensures bound { result ≤ most_ticks }
{
    let mut longest = 0;
    for n in 0..set.len() {
        let task = set.task(n + 1);
        if task.resource != 0 {
            longest = task.within().max(longest);
        }
    }
    longest
}

/// The lowest task that lacks room in a span.
pub(crate) fn breach_in(set: &TaskSet, span: u64) -> Option<Breach>
    requires positive { 1 ≤ span }
    requires short { span ≤ most_ticks }
    ensures span { IfSome result (λ breach. breach.len ≡ span) }
    ensures some { IfSome result (λ breach. IsLowestBreach set.now breach) }
    ensures none { result ≡ None → HaveRoom set.now span set.now }
{
    let demand = demand(set, span - 1);
    for n in 0..set.len() {
        let task = set.task(n + 1);
        if lacks_room(set, span, demand, task) {
            return Some(Breach {
                task: n + 1,
                len: span,
                need: u128::from(task.cost + demand),
            });
        }
    }
    None
}

/// Whether a task lacks room in a span. The demand is that of a tick less.
fn lacks_room(set: &TaskSet, span: u64, demand: u64, task: Task) -> bool
    requires demand { demand ≡ demand_bound set.now (span - 1) }
    requires small { demand ≤ 64000000000000 }
    requires cheap { task.cost ≤ most_ticks }
    ensures { IsTrue result ↔ LacksRoom set.now span task }
{
    span < task.within()
        && span < task.cost + demand
        && set.floor(task.resource).is_some_and(|floor| floor < span)
}

/// The demand of so many ticks.
fn demand(set: &TaskSet, ticks: u64) -> u64
    requires { ticks ≤ most_ticks }
    ensures value { result ≡ demand_bound set.now ticks }
    ensures bound { result ≤ 64000000000000 }
{
    let mut demand = 0;
    for n in 0..set.len() {
        demand += cost_due(set.task(n + 1), ticks);
    }
    demand
}

/// What the jobs of a task cost that can arrive and be due within so many ticks.
fn cost_due(task: Task, ticks: u64) -> u64
    requires positive { 1 ≤ task.period }
    requires slow { task.period ≤ most_ticks }
    requires cheap { task.cost ≤ most_ticks }
    requires short { ticks ≤ most_ticks }
    ensures value { result ≡ jobs_due task ticks * task.cost }
    ensures bound { result ≤ 1000000000000 }
{
    task.jobs_due(ticks) * task.cost
}

/// The least span that is longer than so many ticks and in which a job more of some task can be due, or the end where that comes
/// first.
fn next_point(set: &TaskSet, point: u64, end: u64) -> u64
    requires before { point < end }
    requires short { end ≤ most_ticks }
    ensures later { point < result }
    ensures end { result ≤ end }
    ensures first { All (λ task. result ≤ jobs_due task point * task.period + within task) set.now }
{
    let mut next = end;
    for n in 0..set.len() {
        next = next.min(next_due(set.task(n + 1), point));
    }
    next
}

/// The least span that is longer than so many ticks and in which a job more can be due.
fn next_due(task: Task, point: u64) -> u64
    requires positive { 1 ≤ task.period }
    requires slow { task.period ≤ most_ticks }
    requires point { point ≤ most_ticks }
    ensures value { result ≡ jobs_due task point * task.period + within task }
    ensures later { point < result }
{
    task.jobs_due(point) * task.period + task.within()
}
