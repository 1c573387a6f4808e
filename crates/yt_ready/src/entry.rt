//! Entries, and their order.
ghost use Rattle.std.specs.Prelude.{◌≡◌};
ghost use Rattle.yt_ready.specs.Order.{comes_before};

/// A job that waits for the processor, with what it is ordered by.
#[derive(Clone, Copy, Debug, PartialEq, Eq)]
pub struct Entry {
    /// The tick before which the job is to be done, as it stands now.
    pub deadline: u64,
    /// Whether the job has run for a tick or more.
    pub begun: bool,
    /// The tick at which the job arrived.
    pub arrival: u64,
    /// The number of the job's task.
    pub task: u32,
    /// The job's own number among the task's jobs.
    pub number: u32,
}

/// Whether an entry comes before another: by the deadline; begun before not begun; the arrival; the task; the number.
#[tactic(auto, unfolding(crate::specs::Order::rank, yt_order::specs::Words::precedes))]
pub(crate) fn comes_before(a: &Entry, b: &Entry) -> bool
    ensures { result ≡ comes_before a.now b.now }
{
    if a.deadline != b.deadline {
        return a.deadline < b.deadline;
    }
    if a.begun != b.begun {
        return a.begun;
    }
    if a.arrival != b.arrival {
        return a.arrival < b.arrival;
    }
    if a.task != b.task {
        return a.task < b.task;
    }
    a.number < b.number
}
