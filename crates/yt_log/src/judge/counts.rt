//! Counting over the segments of a log.
ghost use Rattle.std.specs.Prelude.{◌≡◌, ℕ, ◌<◌, ◌≤◌, ◌==◌, ◌&&◌, length, nat_lt};
ghost use Rattle.yt_log.specs.Inside.Counts.{AreOrdered, IsNoLater, segment_at, share, ticks_below};

use crate::job::{Job, Segment};

/// How many ticks below `t` the segments give to a job.
pub(super) fn ticks_below(segments: &[Segment], job: Job, t: u64) -> u64
    requires { AreOrdered segments.now }
    ensures { result ≡ ticks_below segments.now job t }
{
    let mut ticks = 0;
    for segment in segments {
        if t <= segment.from {
            return ticks;
        }
        ticks += share(segment, job, t);
    }
    ticks
}

/// How many ticks below `t` a segment gives to a job.
#[tactic(auto, unfolding(crate::specs::Plan::same_job))]
fn share(segment: &Segment, job: Job, t: u64) -> u64
    ensures { result ≡ share segment.now job t }
{
    if segment.job == job {
        segment.to.min(t).saturating_sub(segment.from)
    } else {
        0
    }
}

/// How many segments in front end by tick `t` and are of no later job of the task than `job`.
pub(super) fn passed(segments: &[Segment], job: Job, t: u64) -> usize
    ensures within { result ≤ length segments.now }
    ensures no_later { (k : ℕ) → k < result → IsNoLater job (segment_at segments.now k) }
{
    for (n, segment) in segments.iter().enumerate() {
        if t < segment.to || is_later(segment.job, job) {
            return n;
        }
    }
    segments.len()
}

/// Whether a job is a later one of another's task.
fn is_later(job: Job, other: Job) -> bool
    ensures { result ≡ (job.task == other.task && nat_lt other.number job.number) }
{
    job.task == other.task && job.number > other.number
}
