//! The handlers of a graph.
ghost use Rattle.std.specs.Prelude.{◌≡◌, ◌≢◌, ◌↔◌, ℕ, ⊤, ◌+◌, ◌<◌, ◌≤◌, length, map, None, Some, IfOk, MatchOption, true};
ghost use Rattle.yt_code.specs.declared.stepped.Stepped.TheVariants.{Ended};
ghost use Rattle.yt_code.specs.Outbox.{TakesAll};
ghost use Rattle.yt_code.specs.Ready.{IsReady, OnGoing};
ghost use Rattle.yt_code.specs.Step.{instruction_step, sends_of};
ghost use Rattle.yt_graph.specs.Picture.{graph_tree};
ghost use Rattle.yt_log.specs.Limits.{most_arrival};
ghost use Rattle.yt_rates.specs.Acceptance.{IsAccepted};
ghost use Rattle.yt_chan.specs.declared.target.Arrived.TheVariants.{Output, Port};
ghost use Rattle.yt_chan.specs.Changes.{IsLeastTime};
ghost use Rattle.yt_chan.specs.Pending.{Pending};
ghost use Rattle.yt_chan.specs.State.{IsApart, IsArriving, IsNext, NoneIsLate, Waits, job_at, placed_at};
ghost use Rattle.yt_chan.specs.Wires.{IsPort};
ghost use Rattle.yt_interleave.specs.Interleaved.{port_at};
ghost use Rattle.yt_body.specs.declared.port_run.PortRun.{PortRun};
ghost use Rattle.yt_body.specs.Sound.{IsPortOf, IsSound, MayCome};
ghost use Rattle.yt_body.specs.State.{HandlersState, IsStart, MayBegin, graph_of, left_at, no_run, run_at, set_of};
ghost use Rattle.yt_body.specs.Steps.{BeginsJob, Comes, ComesTo, Puts, StepsJob, TicksJob, with_message};
ghost use Rattle.yt_body.specs.Inside.Takes.{LeavesSend, TakesSend};

use crate::outs::Outs;
use crate::port_run::{PortRun, PortStage};
use crate::starts::{runs_of, start_of, widths_of};
use crate::wiring::wires_of;
use std::alloc::{AllocError, Global};
use std::marker::Model;
use yt_chan::{Arrived, Channels};
use yt_code::{Code, Stepped};
use yt_exec::{Body, Turn};
use yt_log::Job;
use yt_rates::Accepted;

/// The handlers of an accepted graph's ports, with the variables and the messages on their way. Ports, outputs and jobs are numbered from
/// 1, and times are in ticks. A contract sees a `HandlersState`: the graph's parts, the run of each port, the variables and the channels.
///
/// A port's run goes from message to message: it is idle, then its message is placed, by [`Handlers::put`] or [`Handlers::deliver`], then
/// its job begins and has ticks, as an executive says, and then it is idle again.
#[derive(Drop)]
pub struct Handlers<'a> {
    accepted: &'a Accepted,
    /// By the ports' numbers; number 0 stands for none.
    runs: Vec<PortRun>,
    vars: Vec<i64>,
    outs: Outs,
}

impl<'a> Model for Handlers<'a> {
    ghost use Rattle.std.specs.Coded.{codes as all_codes};
    ghost use Rattle.yt_graph.specs.contracts.graph.Graph as resolved;
    ghost use Rattle.yt_rates.specs.Acceptance.{IsAccepted};
    ghost use Rattle.yt_body.specs.Sound.{IsSound};
    ghost use Rattle.yt_body.specs.State.{HandlersState};

    ghost Value = { HandlersState };

    ghost coded = { Prim.hlevel (all_codes, resolved.the_row.coded) };

    ghost view = { λ h. record { parts = h.accepted.now; runs = h.runs.items; vars = h.vars.items; channels = h.outs.channels } };

    ghost invariant = { λ h. IsAccepted h.accepted.now
        × IsSound (record { parts = h.accepted.now; runs = h.runs.items; vars = h.vars.items; channels = h.outs.channels }) };
}

impl<'a> Handlers<'a> {
    /// The handlers of an accepted graph before the first message. All memory is taken here; `Err` comes where it ran out.
    pub fn new(alloc: Global, accepted: &'a Accepted) -> Result<Self, AllocError>
        ensures { IfOk result (λ handlers. IsStart accepted.now handlers) }
    {
        let graph = accepted.graph();
        let wires = wires_of(alloc, accepted)?;
        let widths = widths_of(alloc, graph.ports.as_slice())?;
        Ok(Handlers {
            accepted,
            runs: runs_of(alloc, graph.ports.len())?,
            vars: start_of(alloc, graph.vars.as_slice())?,
            outs: Outs {
                channels: Channels::with_room(alloc, &widths, &wires)?,
                port: 0,
            },
        })
    }

    /// Places the next message of a port, which comes from outside at the tick `now`. The caller shows that the port is there, that the
    /// message has as many numbers as the port has parameters, and that it may come: none of the port is in handling.
    pub fn put(&mut self, port: u32, values: &[i64], now: u64)
        requires there { IsPortOf (graph_of self.old) port }
        requires wide { length values.now ≡ (port_at (graph_of self.old) port).params }
        requires may { MayCome self.old port now }
        ensures { Puts self.old port values.now now self.new }
    {
        self.outs.channels.put(port, values);
        self.runs[port as usize].place(now);
    }

    /// Places the next message that waits and is due at the tick `now`, of ports by number and then of outputs by number, and answers where;
    /// `None` exactly where none is due, and then nothing changes. The caller shows that none is due before `now`, and that a message for
    /// a port may come.
    pub fn deliver(&mut self, now: u64) -> Option<Arrived>
        requires none_late { NoneIsLate self.old.channels now }
        requires may { (port : ℕ) → IsNext self.old.channels now (Port port) → MayCome self.old port now }
        ensures comes { MatchOption result (self.new ≡ self.old) (λ target. Comes self.old now target self.new) }
        ensures none { MatchOption result ((target : Arrived) → IsArriving self.old.channels now target → ⊥) (λ _. ⊤) }
    {
        let target = self.outs.channels.deliver_one(now)?;
        match target {
            Arrived::Port(port) => self.runs[port as usize].place(now),
            Arrived::Output(_) => {}
        }
        Some(target)
    }

    /// The number of the message that came last to a port, 0 where none came. The caller shows that the port is there.
    pub fn number(&self, port: u32) -> u32
        requires { IsPortOf (graph_of self.now) port }
        ensures { result ≡ (run_at self.now port).number }
    {
        self.runs[port as usize].number
    }

    /// The least tick at which a waiting message is due, in constant time; `None` exactly where none waits.
    pub fn next_due(&self) -> Option<u64>
        ensures { MatchOption result ((m : Pending) → Waits self.now.channels m → ⊥) (λ time. IsLeastTime self.now.channels time) }
    {
        self.outs.channels.next_due()
    }

    /// The message last placed at an output. The caller shows that there is one.
    pub fn shown(&self, output: u32) -> &[i64]
        requires { placed_at self.now.channels (Output output) ≢ None }
        ensures { placed_at self.now.channels (Output output) ≡ Some result.now }
    {
        self.outs.channels.shown(output)
    }

    /// The variables, by place from 0.
    pub fn vars(&self) -> &[i64]
        ensures vars { result.now ≡ self.now.vars }
        ensures accepted { IsAccepted self.now.parts }
        ensures sound { IsSound self.now }
    {
        self.vars.as_slice()
    }
}

impl<'a> Body for Handlers<'a> {
    ghost tasks = { λ h. set_of h };

    ghost left = { λ h. left_at h };

    ghost may_begin = { λ h. MayBegin h };

    ghost begins = { λ h job new. BeginsJob h job new };

    ghost steps = { λ h job new. StepsJob h job new };

    fn begin(&mut self, job: Job) {
        let code = self.accepted.codes().code(job.task);
        let message = self.outs.channels.message(job.task);
        self.runs[job.task as usize].begin(code, message);
    }

    fn step(&mut self, job: Job) -> Turn {
        let code = self.accepted.codes().code(job.task);
        self.outs.port = job.task;
        tick(
            code,
            job,
            &mut self.runs[job.task as usize],
            &mut self.vars,
            &mut self.outs,
        )
    }
}

/// One tick of a job in its code, which closes the job where it was the last. The caller shows that the job has begun and not ended.
fn tick(code: &Code, job: Job, run: &mut PortRun, vars: &mut [i64], outs: &mut Outs) -> Turn
    requires port { outs.old.port ≡ job.task }
    requires begun { run.old.stage ≡ PortStage.Begun }
    requires ready { IsReady code.now run.old.machine }
    requires vars { length vars.old ≡ code.now.vars }
    requires takes { TakesAll TakesSend LeavesSend (sends_of (instruction_step code.now.instrs run.old.machine vars.old)) outs.old }
    requires there { IsPort outs.old.channels.widths job.task }
    requires handled { (job_at outs.old.channels job.task).in_handling ≡ true }
    requires next { job.number ≡ (job_at outs.old.channels job.task).number + 1 }
    requires early { run.old.arrival ≤ most_arrival }
    requires apart { IsApart outs.old.channels job.task run.old.arrival }
    ensures ticks { TicksJob code.now job run.old vars.old outs.old.channels run.new vars.new outs.new.channels }
    ensures last { (result ≡ Turn.Last) ↔ (run.new.stage ≡ PortStage.Idle) }
    ensures ready { run.new.stage ≡ PortStage.Begun → IsReady code.now run.new.machine }
{
    match run.machine.step(code, vars, outs) {
        Stepped::Going => Turn::More,
        Stepped::Ended => {
            outs.close(job, run.arrival);
            run.stage = PortStage::Idle;
            Turn::Last
        }
    }
}
