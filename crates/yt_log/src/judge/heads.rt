//! The first unfinished job of each task, which tells where the next tick goes.
#![tactic(auto, unfolding(crate::specs::Inside::Heads::item_at, crate::specs::Inside::Heads::head_at))]

ghost use Rattle.std.specs.Prelude.{◌≡◌, ◌↔◌, ℕ, suc, ◌+◌, ◌^◌, ◌<◌, ◌≤◌, [], ◌∷◌, length, IfNone, IfSome, IsTrue};
ghost use Rattle.std.specs.List.{All};
ghost use Rattle.yt_set.specs.Tasks.{floor_of};
ghost use Rattle.yt_set.specs.Limits.{most_tasks};
ghost use Rattle.yt_log.specs.Limits.{most_arrival};
ghost use Rattle.yt_log.specs.EdfDdm.{lowered};
ghost use Rattle.yt_order.specs.Words.{precedes};
ghost use Rattle.yt_log.specs.Inside.Heads.{Leads, Starts, Waits, head_at, head_rank, item_of, ran};
ghost use Rattle.yt_log.specs.Plan.{its_task};

use crate::plan::PlanItem;
use yt_set::TaskSet;

/// The first unfinished job of a task.
#[derive(Clone, Copy, Debug)]
pub struct Head {
    /// The place of its item in the plan, from 0; the plan's length where all jobs of the task are done.
    pub place: usize,
    /// How many ticks it has had.
    pub had: u64,
    /// Its current deadline.
    pub due: u64,
}

/// What stands for a head before there is one.
pub(super) const NO_HEAD: Head = Head {
    place: 0,
    had: 0,
    due: 0,
};

/// Sets each head to its task's first item.
pub(super) fn start(set: &TaskSet, items: &[PlanItem], heads: &mut [Head])
    requires all { length heads.old ≡ length set.now }
    requires few { length set.now ≤ most_tasks }
    requires early { All (λ item. item.arrival ≤ most_arrival) items.now }
    ensures starts { (n : ℕ) → n < length heads.new → Starts set.now items.now (suc n) 0 (head_at heads.new n) }
    ensures long { length heads.new ≡ length set.now }
{
    for (n, head) in heads.iter_mut().enumerate() {
        *head = next_head(set, items, n as u32 + 1, 0);
    }
}

/// The first item of a task at place `from` or behind it, before any of its ticks.
pub(super) fn next_head(set: &TaskSet, items: &[PlanItem], task: u32, from: usize) -> Head
    requires from_one { 1 ≤ task }
    requires in_set { task ≤ length set.now }
    requires within { from ≤ length items.now }
    requires early { All (λ item. item.arrival ≤ most_arrival) items.now }
    ensures { Starts set.now items.now task from result }
{
    for place in from..items.len() {
        if items[place].job.task == task {
            return Head {
                place,
                had: 0,
                due: items[place].deadline(set),
            };
        }
    }
    Head {
        place: items.len(),
        had: 0,
        due: 0,
    }
}

/// The head that comes first of those that wait at a tick, by the number of its task less one. `None` comes exactly where none
/// waits.
pub(super) fn least_head(items: &[PlanItem], heads: &[Head], tick: u64) -> Option<usize>
    requires { (n : ℕ) → n < length heads.now → (head_at heads.now n).place < length items.now → (head_at heads.now n).had < (item_of items.now (head_at heads.now n)).cost }
    ensures { Leads items.now tick (length heads.now) (head_at heads.now) result }
{
    let mut least = None;
    for n in 0..heads.len() {
        least = lead(items, heads, tick, least, n);
    }
    least
}

/// The least head of one head more.
fn lead(
    items: &[PlanItem],
    heads: &[Head],
    tick: u64,
    least: Option<usize>,
    n: usize,
) -> Option<usize>
    requires within { n < length heads.now }
    requires unfinished { (head_at heads.now n).place < length items.now → (head_at heads.now n).had < (item_of items.now (head_at heads.now n)).cost }
    requires leads { Leads items.now tick n (head_at heads.now) least }
    ensures { Leads items.now tick (n + 1) (head_at heads.now) result }
{
    let head = heads[n];
    if !waits(items, head, tick) {
        return least;
    }
    match least {
        None => Some(n),
        Some(first) => {
            if precedes(items, head, heads[first]) {
                Some(n)
            } else {
                Some(first)
            }
        }
    }
}

/// Whether a head waits at a tick.
fn waits(items: &[PlanItem], head: Head, tick: u64) -> bool
    requires { head.place < length items.now → head.had < (item_of items.now head).cost }
    ensures { IsTrue result ↔ Waits items.now tick head }
{
    head.place < items.len() && items[head.place].arrival <= tick
}

/// Whether a head comes before another: by its current deadline; begun before not begun; by arrival, task and number.
#[tactic(auto, unfolding(yt_order::specs::Words::precedes, crate::specs::Inside::Heads::head_rank, crate::specs::Inside::Heads::item_at))]
fn precedes(items: &[PlanItem], head: Head, other: Head) -> bool
    requires head { head.place < length items.now }
    requires other { other.place < length items.now }
    ensures { result ≡ precedes (head_rank items.now head) (head_rank items.now other) }
{
    if head.due != other.due {
        return head.due < other.due;
    }
    let begun = head.had != 0;
    let other_begun = other.had != 0;
    if begun != other_begun {
        return begun;
    }
    comes_before(items[head.place], items[other.place])
}

/// Whether an item comes before another by arrival, task and number.
#[tactic(auto, unfolding(yt_order::specs::Words::precedes))]
fn comes_before(item: PlanItem, other: PlanItem) -> bool
    ensures { result ≡ precedes (item.arrival ∷ item.job.task ∷ item.job.number ∷ []) (other.arrival ∷ other.job.task ∷ other.job.number ∷ []) }
{
    if item.arrival != other.arrival {
        item.arrival < other.arrival
    } else if item.job.task != other.job.task {
        item.job.task < other.job.task
    } else {
        item.job.number < other.job.number
    }
}

/// The least of `to` and of the arrivals of heads after a tick.
pub(super) fn next_arrival(items: &[PlanItem], heads: &[Head], tick: u64, to: u64) -> u64
    requires { tick < to }
    ensures after { tick < result }
    ensures most { result ≤ to }
    ensures quiet { (n : ℕ) → n < length heads.now → (head_at heads.now n).place < length items.now → tick < (item_of items.now (head_at heads.now n)).arrival → result ≤ (item_of items.now (head_at heads.now n)).arrival }
{
    let mut until = to;
    for head in heads {
        until = by_arrival(items, *head, tick, until);
    }
    until
}

/// The least of `to` and of the arrival of a head, where it comes after a tick.
fn by_arrival(items: &[PlanItem], head: Head, tick: u64, to: u64) -> u64
    requires { tick < to }
    ensures after { tick < result }
    ensures most { result ≤ to }
    ensures quiet { head.place < length items.now → tick < (item_of items.now head).arrival → result ≤ (item_of items.now head).arrival }
{
    if head.place < items.len() && tick < items[head.place].arrival {
        to.min(items[head.place].arrival)
    } else {
        to
    }
}

/// The head of a task after ticks from `tick` on that went to its item: the task's next item where the item is done by then.
pub(super) fn moved(set: &TaskSet, items: &[PlanItem], head: Head, tick: u64, ticks: u64) -> Head
    requires from_one { 1 ≤ (item_of items.now head).job.task }
    requires in_set { (item_of items.now head).job.task ≤ length set.now }
    requires within { head.place < length items.now }
    requires most { head.had + ticks ≤ (item_of items.now head).cost }
    requires soon { tick + ticks < 2 ^ 64 }
    requires some { 0 < ticks }
    requires early { All (λ item. item.arrival ≤ most_arrival) items.now }
    ensures on { head.had + ticks < (item_of items.now head).cost → result ≡ ran set.now items.now tick ticks head }
    ensures next { head.had + ticks ≡ (item_of items.now head).cost → Starts set.now items.now (item_of items.now head).job.task (head.place + 1) result }
{
    let item = items[head.place];
    if ticks == item.cost - head.had {
        return next_head(set, items, item.job.task, head.place + 1);
    }
    let due = if head.had == 0 {
        lowered(set, item, head.due, tick)
    } else {
        head.due
    };
    Head {
        place: head.place,
        had: head.had + ticks,
        due,
    }
}

/// The deadline of an item whose first tick is `first`, lowered by the deadline floor of its resource.
fn lowered(set: &TaskSet, item: PlanItem, due: u64, first: u64) -> u64
    requires from_one { 1 ≤ item.job.task }
    requires in_set { item.job.task ≤ length set.now }
    requires soon { first + 1 < 2 ^ 64 }
    ensures { result ≡ lowered due first (floor_of set.now (its_task set.now item).resource) }
{
    match set.floor(set.task(item.job.task).resource) {
        Some(floor) => due.min((first + 1).saturating_add(floor)),
        None => due,
    }
}
