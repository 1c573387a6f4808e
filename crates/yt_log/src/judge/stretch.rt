//! The stretches of a log: ticks that all went to one job, or were all idle.
#![tactic(auto, unfolding(crate::specs::Inside::Counts::segment_at))]

ghost use Rattle.std.specs.Prelude.{◌<◌, ◌≤◌, length};
ghost use Rattle.yt_log.specs.Inside.Counts.{segment_at};
ghost use Rattle.yt_log.specs.Inside.Following.{IsStretch, Reads};
ghost use Rattle.yt_log.specs.Segments.{segments_of};

use crate::job::Job;
use crate::log::Log;

/// Ticks up to before tick `to`.
#[derive(Clone, Copy, Debug)]
pub struct Stretch {
    /// The job that they went to; `None` where they are idle.
    pub job: Option<Job>,
    pub to: u64,
}

/// The stretch from a tick on, where the segments from place `next` on tell the log from there on.
pub(super) fn stretch_from(log: &Log, next: usize, tick: u64) -> Stretch
    requires reads { Reads log.now (segments_of log.now) tick next }
    requires below { tick < length log.now }
    ensures stretch { IsStretch log.now tick result }
    ensures short { next < length (segments_of log.now) → result.to ≤ (segment_at (segments_of log.now) next).to }
{
    let segments = log.segments();
    if next >= segments.len() {
        return Stretch {
            job: None,
            to: log.until(),
        };
    }
    let segment = segments[next];
    if tick < segment.from {
        Stretch {
            job: None,
            to: segment.from,
        }
    } else {
        Stretch {
            job: Some(segment.job),
            to: segment.to,
        }
    }
}

/// The place from which on the segments tell the log from tick `to` on, which is no later than the end of the segment at `next`.
pub(super) fn next_from(log: &Log, next: usize, tick: u64, to: u64) -> usize
    requires reads { Reads log.now (segments_of log.now) tick next }
    requires on { tick ≤ to }
    requires short { next < length (segments_of log.now) → to ≤ (segment_at (segments_of log.now) next).to }
    ensures { Reads log.now (segments_of log.now) to result }
{
    let segments = log.segments();
    if next < segments.len() && segments[next].to <= to {
        next + 1
    } else {
        next
    }
}
