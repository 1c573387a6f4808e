//! What runs in the ticks.
ghost use Rattle.std.specs.Prelude.{◌≡◌, ◌↔◌, ℕ, ◌<◌, List};
ghost use Rattle.yt_set.specs.declared.task.Task.{Task};
ghost use Rattle.yt_log.specs.declared.job.Job.{Job};
ghost use Rattle.yt_exec.specs.Bodies.{Begins, IsFree, IsKnown, MayStillBegin, Steps};

use yt_log::Job;

/// Whether a job goes on after a tick.
#[derive(Clone, Copy, Debug, PartialEq, Eq)]
pub enum Turn {
    /// There are more ticks to come.
    More,
    /// This tick was the job's last.
    Last,
}

/// What jobs do in their ticks. It says five things: the set that it was made for (`tasks`); how many ticks are left of each job,
/// from 1 to its task's cost where it has begun and not ended, and else 0 (`left`); which jobs may begin (`may_begin`); and what
/// each call leaves of it (`begins`, `steps`).
pub trait Body {
    ghost tasks: { Self → List Task };

    ghost left: { Self → Job → ℕ };

    ghost may_begin: { Self → Job → Type 0 };

    ghost begins: { Self → Job → Self → Type 0 };

    ghost steps: { Self → Job → Self → Type 0 };

    /// Begins a job. The caller shows that it may begin and has not begun, that its task is in the set, and that no job with ticks
    /// left is under its resource, where it is under one.
    fn begin(&mut self, job: Job)
        requires may { may_begin self.old job }
        requires idle { left self.old job ≡ 0 }
        requires known { IsKnown (tasks self.old) job }
        requires free { IsFree (tasks self.old) (left self.old) job }
        ensures begun { Begins (tasks self.old) (left self.old) (left self.new) job }
        ensures tasks { tasks self.new ≡ tasks self.old }
        ensures may { MayStillBegin (may_begin self.old) (may_begin self.new) job }
        ensures leaves { begins self.old job self.new };

    /// Gives a job one tick. The caller shows that the job has begun and not ended.
    fn step(&mut self, job: Job) -> Turn
        requires { 0 < left self.old job }
        ensures stepped { Steps (left self.old) (left self.new) job }
        ensures last { (result ≡ Turn.Last) ↔ (left self.new job ≡ 0) }
        ensures tasks { tasks self.new ≡ tasks self.old }
        ensures may { MayStillBegin (may_begin self.old) (may_begin self.new) job }
        ensures leaves { steps self.old job self.new };
}
