//! Logs: which job each tick went to.
ghost use Rattle.std.specs.Prelude.{◌≡◌, ◌+◌, ◌-◌, ◌^◌, ◌<◌, ◌≤◌, [], ◌∷◌, ◌++◌, length, replicate, slice_get, slice_index_or, Some, None, OnOk, OnErr};
ghost use Rattle.yt_log.specs.Segments.{ends_in, segments_of, with_run};

use crate::job::{Job, Segment};
use std::alloc::{AllocError, Global};
use std::marker::Model;

/// Which job each tick from 0 on went to. A contract sees the list of the ticks, each a job or `None` where it was idle.
#[derive(Debug, Drop)]
pub struct Log {
    segments: Vec<Segment>,
    until: u64,
}

impl Model for Log {
    ghost use Rattle.std.specs.Prelude.{◌≡◌};
    ghost use Rattle.yt_log.specs.Ticks.{Ticks};
    ghost use Rattle.yt_log.specs.Segments.{segments_of, ticks_of};

    ghost Value = { Ticks };

    ghost view = { λ l. ticks_of l.segments.items l.until };

    ghost invariant = { λ l. l.segments.items ≡ segments_of (ticks_of l.segments.items l.until) };
}

impl Log {
    /// The log of no tick. Takes no memory.
    pub fn new(alloc: Global) -> Self
        ensures { result ≡ [] }
    {
        Log {
            segments: Vec::new(alloc),
            until: 0,
        }
    }

    /// Tells which job the next tick went to, `None` where it was idle. The caller shows that fewer than 2^63 ticks were told. `Err`
    /// comes where memory ran out; the log is then as before.
    pub fn tell(&mut self, job: Option<Job>) -> Result<(), AllocError>
        requires { length self.old < 2 ^ 63 }
        ensures ok { OnOk result (self.new ≡ self.old ++ job ∷ []) }
        ensures err { OnErr result (self.new ≡ self.old) }
    {
        match job {
            Some(job) => self.tell_run(job, 1),
            None => {
                self.until += 1;
                Ok(())
            }
        }
    }

    /// Tells idle ticks up to before tick `until`, none where the log has reached it. Takes no memory.
    pub fn tell_idle(&mut self, until: u64)
        ensures { self.new ≡ self.old ++ replicate (until - length self.old) None }
    {
        if self.until < until {
            self.until = until;
        }
    }

    /// Tells `ticks` ticks that went to one job. The caller shows that these are then at most 2^63 in all. `Err` comes where memory ran
    /// out; the log is then as before.
    pub fn tell_run(&mut self, job: Job, ticks: u64) -> Result<(), AllocError>
        requires { length self.old + ticks ≤ 2 ^ 63 }
        ensures ok { OnOk result (self.new ≡ self.old ++ replicate ticks (Some job)) }
        ensures err { OnErr result (self.new ≡ self.old) }
    {
        if ticks == 0 {
            return Ok(());
        }
        let to = self.until + ticks;
        add_run(&mut self.segments, self.until, to, job)?;
        self.until = to;
        Ok(())
    }

    /// How many ticks were told.
    pub fn until(&self) -> u64
        ensures { result ≡ length self.now }
    {
        self.until
    }

    /// How many segments there are.
    pub fn len(&self) -> usize
        ensures { result ≡ length (segments_of self.now) }
    {
        self.segments.len()
    }

    /// The segment at place `n`, counted from 0. The caller shows that there is one.
    pub fn at(&self, n: usize) -> Segment
        requires { n < length (segments_of self.now) }
        ensures get { slice_get (segments_of self.now) n ≡ Some result }
        ensures item { result ≡ slice_index_or (segments_of self.now) n result }
    {
        self.segments[n]
    }

    /// All segments in order, as a slice to go over.
    pub fn segments(&self) -> &[Segment]
        ensures { result.now ≡ segments_of self.now }
    {
        &self.segments
    }
}

/// Adds the ticks from `from` to before `to` to the last segment where it ends at `from` and is of the job, else as a
/// segment of their own. `Err` comes where memory ran out; the segments are then as before.
fn add_run(segments: &mut Vec<Segment>, from: u64, to: u64, job: Job) -> Result<(), AllocError>
    ensures ok { OnOk result (segments.new.items ≡ with_run segments.old.items from to job) }
    ensures err { OnErr result (segments.new.items ≡ segments.old.items) }
{
    if ends_in(segments, from, job) {
        let last = segments.len() - 1;
        segments[last].to = to;
    } else {
        segments.push(Segment { from, to, job })?;
    }
    Ok(())
}

/// Whether there is a last segment, and it ends at tick `end` and is of the job.
fn ends_in(segments: &[Segment], end: u64, job: Job) -> bool
    ensures { result ≡ ends_in segments.now end job }
{
    match segments.last() {
        Some(last) => last.to == end && last.job == job,
        None => false,
    }
}
