//! Where a job's sends go.
ghost use Rattle.std.specs.Prelude.{◌≡◌, ◌≤◌, ◌+◌, true};
ghost use Rattle.yt_log.specs.Limits.{most_arrival};
ghost use Rattle.yt_chan.specs.State.{IsApart, job_at, open_on};
ghost use Rattle.yt_chan.specs.Wires.{IsPort};
ghost use Rattle.yt_body.specs.Sends.{Closes};
ghost use Rattle.yt_body.specs.Inside.Takes.{LeavesSend, TakesSend};

use yt_chan::Channels;
use yt_code::Outbox;
use yt_log::Job;

/// The channels, to which the jobs of one port at a time send.
#[derive(Drop)]
pub(crate) struct Outs {
    pub(crate) channels: Channels,
    /// The port whose job sends.
    pub(crate) port: u32,
}

impl Outbox for Outs {
    ghost sent = { λ o. open_on o.channels o.port };

    ghost takes = { TakesSend };

    ghost leaves = { LeavesSend };

    fn send(&mut self, out: u32, values: &[i64]) {
        self.channels.send(self.port, out, values);
    }
}

impl Outs {
    /// Closes a job that arrived at a tick, as [`Channels::close_job`] does.
    pub(crate) fn close(&mut self, job: Job, arrival: u64)
        requires there { IsPort self.old.channels.widths job.task }
        requires handled { (job_at self.old.channels job.task).in_handling ≡ true }
        requires next { job.number ≡ (job_at self.old.channels job.task).number + 1 }
        requires early { arrival ≤ most_arrival }
        requires apart { IsApart self.old.channels job.task arrival }
        ensures { Closes self.old.channels self.new.channels job arrival }
    {
        self.channels.close_job(job, arrival);
    }
}
