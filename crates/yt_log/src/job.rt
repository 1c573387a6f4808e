//! Jobs, and the segments of a log.

/// One job of a task: the number of its task and its own number among the task's jobs, both from 1.
#[derive(Clone, Copy, Debug, PartialEq, Eq)]
pub struct Job {
    pub task: u32,
    pub number: u32,
}

/// A longest run of ticks that went to one job: from tick `from` to before tick `to`.
#[derive(Clone, Copy, Debug, PartialEq, Eq)]
pub struct Segment {
    pub from: u64,
    pub to: u64,
    pub job: Job,
}
