//! A run as far as it has come.
ghost use Rattle.std.specs.Prelude.{◌≡◌, ◌≢◌, ◌⊎◌, ℕ, suc, ⊤, ◌+◌, ◌-◌, ◌<◌, ◌≤◌, ◌++◌, ◌∷◌, [], true, false, length, slice_get, Some, IfOk, OnOk, MatchOption};
ghost use Rattle.yt_bound.specs.Bounds.{job_bound};
ghost use Rattle.yt_chan.specs.declared.target.Arrived.TheVariants.{Output};
ghost use Rattle.yt_chan.specs.State.{placed_at};
ghost use Rattle.yt_exec.specs.StandsFor.{job_run};
ghost use Rattle.yt_graph.specs.Picture.{graph_tree};
ghost use Rattle.yt_trace.specs.Traces.{KeepsPeriods};
ghost use Rattle.yt_body_laws.specs.Placing.{FeedsSome, IsFedBy};
ghost use Rattle.yt_runner.specs.Limits.{most_jobs_and_lines};
ghost use Rattle.yt_runner.specs.Inside.Going.{GoesRound, HasCome, HasDelivered, HasReached, IsDelivering, IsGoing, IsNextTick, IsNow, IsPlacedNow, IsServing, IsTaking, NextFeeds, NoneIsLeft};
ghost use Rattle.yt_runner.specs.Inside.Next.{least_of, next_read};
ghost use Rattle.yt_runner.specs.Inside.State.{IsSameRun, graph_of};

use crate::laws::handlers_go_on;
use std::alloc::{AllocError, Global};
use std::marker::Model;
use yt_body::Handlers;
use yt_bound::most_jobs;
use yt_chan::Arrived;
use yt_exec::{Executive, Ticked};
use yt_graph::{Feed, Port};
use yt_list::Vals;
use yt_log::{Job, Log};
use yt_rates::Accepted;
use yt_run::Told;
use yt_serial::{OutLine, Outs};
use yt_trace::{Message, Trace};

/// A run as far as it has come: the executive and the handlers that it goes by, what it has told, and how many messages of the trace it has
/// taken. A contract sees a `RunnerState`.
#[derive(Drop)]
pub(crate) struct Running<'a> {
    accepted: &'a Accepted,
    trace: &'a Trace,
    executive: Executive,
    handlers: Handlers<'a>,
    log: Log,
    lines: Outs,
    taken: usize,
}

impl<'a> Model for Running<'a> {
    ghost use Rattle.std.specs.Coded.{codes as all_codes};
    ghost use Rattle.yt_graph.specs.contracts.graph.Graph as resolved;
    ghost use Rattle.yt_runner.specs.Inside.State.{RunnerState};

    ghost Value = { RunnerState };

    ghost coded = { Prim.hlevel (all_codes, resolved.the_row.coded) };

    ghost view = { λ r. record {
      parts = r.accepted.now;
      trace = r.trace.now;
      moment = r.executive;
      body = r.handlers;
      log = r.log;
      lines = r.lines;
      taken = r.taken;
    } };
}

impl<'a> Running<'a> {
    /// A run before its first tick. `Err` comes where memory ran out.
    pub(crate) fn new(
        alloc: Global,
        accepted: &'a Accepted,
        trace: &'a Trace,
    ) -> Result<Self, AllocError>
        requires keeps { KeepsPeriods (graph_tree accepted.now.graph) trace.now }
        requires bound { job_bound (graph_tree accepted.now.graph) trace.now ≤ most_jobs_and_lines }
        ensures parts { IfOk result (λ running. running.parts ≡ accepted.now) }
        ensures trace { IfOk result (λ running. running.trace ≡ trace.now) }
        ensures going { IfOk result (λ running. (upto : ℕ) → IsGoing upto running) }
    {
        handlers_go_on();
        let room = most_jobs(accepted, trace) as usize + 1;
        let executive = Executive::with_room(alloc, accepted.set(), room)?;
        let handlers = Handlers::new(alloc, accepted)?;
        let _sound = handlers.vars();
        Ok(Running {
            accepted,
            trace,
            executive,
            handlers,
            log: Log::new(alloc),
            lines: Outs::new(alloc),
            taken: 0,
        })
    }

    /// Goes on up to a tick, or to the run's end where that comes first. `Err` comes where memory ran out.
    pub(crate) fn go_on(&mut self, alloc: Global, upto: u64) -> Result<(), AllocError>
        requires going { IsGoing upto self.old }
        ensures same { IsSameRun self.old self.new }
        ensures reached { OnOk result (HasReached upto self.new) }
    {
        while self.executive.now() < upto {
            if !self.round(alloc, upto)? {
                return Ok(());
            }
        }
        Ok(())
    }

    /// What has been told.
    pub(crate) fn told(self) -> Told
        ensures log { result.log ≡ self.entry.log }
        ensures outs { result.outs ≡ self.entry.lines }
    {
        let Running { log, lines, .. } = self;
        Told { log, outs: lines }
    }

    /// The variables. `Err` comes where memory ran out.
    pub(crate) fn vars(&self, alloc: Global) -> Result<Vals, AllocError>
        ensures { IfOk result (λ values. values ≡ self.now.body.vars) }
    {
        Ok(Vals::from_vec(self.handlers.vars().to_vec(alloc)?))
    }

    /// Places what comes now, and gives a tick or idles up to the next one at which something comes, at most up to `upto`. Answers whether
    /// the run goes on; it is over where no job and no message waits and all of the trace is taken. `Err` comes where memory ran out.
    fn round(&mut self, alloc: Global, upto: u64) -> Result<bool, AllocError>
        requires going { IsGoing upto self.old }
        requires early { self.old.moment.clock < upto }
        ensures same { IsSameRun self.old self.new }
        ensures goes { IfOk result (λ more. GoesRound upto self.old self.new more) }
    {
        self.take_all();
        self.deliver_all(alloc)?;
        if self.executive.is_idle() {
            self.pass_over();
            return Ok(self.idle(upto));
        }
        self.tick(alloc)?;
        Ok(true)
    }

    /// Puts all messages of the trace that come now.
    fn take_all(&mut self)
        requires going { (upto : ℕ) × IsGoing upto self.old × (self.old.moment.clock < upto) }
        ensures same { IsSameRun self.old self.new }
        ensures clock { self.new.moment.clock ≡ self.old.moment.clock }
        ensures delivering { IsDelivering self.new }
    {
        handlers_go_on();
        while self.comes_now() {
            self.take();
        }
    }

    /// Whether the next message of the trace comes now.
    fn comes_now(&self) -> bool
        ensures { IsNow self.now result }
    {
        match self.trace.messages().get(self.taken) {
            Some(message) => message.time <= self.executive.now(),
            None => false,
        }
    }

    /// Puts the next message of the trace, which comes now, at each port that its input feeds.
    fn take(&mut self)
        requires taking { IsTaking self.old }
        requires now { IsNow self.old true }
        ensures same { IsSameRun self.old self.new }
        ensures clock { self.new.moment.clock ≡ self.old.moment.clock }
        ensures taken { self.new.taken ≡ self.old.taken + 1 }
        ensures taking { IsTaking self.new }
    {
        handlers_go_on();
        let message = &self.trace.messages()[self.taken];
        for place in 0..self.accepted.graph().ports.len() {
            self.serve(place, message);
        }
        self.taken += 1;
    }

    /// Puts a message at the port at a place, counted from 0, where the port is fed by the message's input.
    fn serve(&mut self, place: usize, message: &Message)
        requires there { place < length (graph_of self.old).ports }
        requires serving { IsServing self.old message.now place }
        ensures same { IsSameRun self.old self.new }
        ensures clock { self.new.moment.clock ≡ self.old.moment.clock }
        ensures taken { self.new.taken ≡ self.old.taken }
        ensures serving { IsServing self.new message.now (place + 1) }
    {
        if is_fed(self.accepted.graph().ports.at(place), message.input) {
            self.put(place as u32 + 1, message);
        }
    }

    /// Puts a message at a port that its input feeds, and releases the job.
    fn put(&mut self, port: u32, message: &Message)
        requires from_one { 1 ≤ port }
        requires serving { IsServing self.old message.now (port - 1) }
        requires fed { IsFedBy (graph_of self.old) port message.now.input }
        ensures same { IsSameRun self.old self.new }
        ensures clock { self.new.moment.clock ≡ self.old.moment.clock }
        ensures taken { self.new.taken ≡ self.old.taken }
        ensures serving { IsServing self.new message.now port }
    {
        handlers_go_on();
        self.handlers
            .put(port, message.values.as_slice(), self.executive.now());
        let _sound = self.handlers.vars();
        let number = self.handlers.number(port);
        self.executive.release(Job { task: port, number });
    }

    /// Places all messages that wait and are due now. `Err` comes where memory ran out.
    fn deliver_all(&mut self, alloc: Global) -> Result<(), AllocError>
        requires delivering { IsDelivering self.old }
        ensures same { IsSameRun self.old self.new }
        ensures clock { self.new.moment.clock ≡ self.old.moment.clock }
        ensures placed { OnOk result (IsPlacedNow self.new) }
    {
        while self.deliver(alloc)? {}
        Ok(())
    }

    /// Places the next message that waits and is due now; answers whether there was one. `Err` comes where memory ran out.
    fn deliver(&mut self, alloc: Global) -> Result<bool, AllocError>
        requires delivering { IsDelivering self.old }
        ensures same { IsSameRun self.old self.new }
        ensures clock { self.new.moment.clock ≡ self.old.moment.clock }
        ensures delivered { IfOk result (λ more. HasDelivered self.old self.new more) }
    {
        handlers_go_on();
        let Some(target) = self.handlers.deliver(self.executive.now()) else {
            return Ok(false);
        };
        let _sound = self.handlers.vars();
        self.tell(alloc, target)?;
        Ok(true)
    }

    /// Tells of the message that has come to a target: at a port its job is released, at an output a line is shown. `Err` comes where memory
    /// ran out.
    fn tell(&mut self, alloc: Global, target: Arrived) -> Result<(), AllocError>
        requires come { HasCome self.old target }
        ensures same { IsSameRun self.old self.new }
        ensures clock { self.new.moment.clock ≡ self.old.moment.clock }
        ensures body { self.new.body ≡ self.old.body }
        ensures delivering { OnOk result (IsDelivering self.new) }
    {
        handlers_go_on();
        match target {
            Arrived::Port(port) => {
                let number = self.handlers.number(port);
                self.executive.release(Job { task: port, number });
            }
            Arrived::Output(output) => {
                let line = line_of(alloc, &self.handlers, output, self.executive.now())?;
                self.lines.push(line)?;
            }
        }
        Ok(())
    }

    /// Gives the next tick to a job, of which one waits. `Err` comes where memory ran out.
    fn tick(&mut self, alloc: Global) -> Result<(), AllocError>
        requires placed { IsPlacedNow self.old }
        requires some { self.old.moment.entries ≢ [] }
        ensures same { IsSameRun self.old self.new }
        ensures going { OnOk result ((upto : ℕ) → self.old.moment.clock < upto → IsGoing upto self.new) }
        ensures clock { OnOk result (self.new.moment.clock ≡ self.old.moment.clock + 1) }
    {
        handlers_go_on();
        let ticked = self.executive.tick(&mut self.handlers);
        let _sound = self.handlers.vars();
        self.log.tell(job_run(ticked))
    }

    /// Passes over the messages of the trace that feed no port, up to the next one that does.
    fn pass_over(&mut self)
        requires placed { IsPlacedNow self.old }
        ensures same { IsSameRun self.old self.new }
        ensures moment { self.new.moment ≡ self.old.moment }
        ensures placed { IsPlacedNow self.new }
        ensures feeds { NextFeeds self.new }
    {
        handlers_go_on();
        while self.is_unfed() {
            self.taken += 1;
        }
    }

    /// Whether there is a next message of the trace, and it feeds no port.
    fn is_unfed(&self) -> bool
        ensures unfed { result ≡ true → (x : Message) × (slice_get self.now.trace self.now.taken ≡ Some x) × (FeedsSome (graph_of self.now) x.input → ⊥) }
        ensures feeds { result ≡ false → NextFeeds self.now }
    {
        match self.trace.messages().get(self.taken) {
            Some(message) => !feeds_some(self.accepted, message.input),
            None => false,
        }
    }

    /// Idles up to the next tick at which something comes, at most up to `upto`; answers whether there is one.
    fn idle(&mut self, upto: u64) -> bool
        requires placed { IsPlacedNow self.old }
        requires feeds { NextFeeds self.old }
        requires none { self.old.moment.entries ≡ [] }
        requires early { self.old.moment.clock < upto }
        ensures same { IsSameRun self.old self.new }
        ensures goes { GoesRound upto self.old self.new result }
    {
        handlers_go_on();
        let Some(time) = self.next_time() else {
            return false;
        };
        let tick = time.min(upto);
        self.executive.idle_until(tick);
        self.log.tell_idle(tick);
        true
    }

    /// The least tick at which a message that waits is due or the next one of the trace comes; `None` where neither is left.
    fn next_time(&self) -> Option<u64>
        ensures { MatchOption result (NoneIsLeft self.now) (λ time. IsNextTick self.now time) }
    {
        least_of(self.handlers.next_due(), self.next_read())
    }

    /// The tick at which the next message of the trace comes; `None` where none is left.
    fn next_read(&self) -> Option<u64>
        ensures { result ≡ next_read self.now }
    {
        self.trace.messages().get(self.taken).map(|m| m.time)
    }
}

/// The lesser of two ticks, where both are there, and else the one that is.
fn least_of(a: Option<u64>, b: Option<u64>) -> Option<u64>
    ensures { result ≡ least_of a b }
{
    match (a, b) {
        (Some(a), Some(b)) => Some(a.min(b)),
        (a, None) => a,
        (None, b) => b,
    }
}

/// The job that a tick went to.
fn job_run(ticked: Ticked) -> Option<Job>
    ensures { result ≡ job_run ticked }
{
    match ticked {
        Ticked::Idle => None,
        Ticked::Ran { job, .. } => Some(job),
    }
}

/// Whether an input feeds a port.
fn feeds_some(accepted: &Accepted, input: u32) -> bool
    ensures some { result ≡ true → FeedsSome (graph_tree accepted.now.graph) input }
    ensures none { result ≡ false → FeedsSome (graph_tree accepted.now.graph) input → ⊥ }
{
    accepted
        .graph()
        .ports
        .as_slice()
        .iter()
        .any(|port| is_fed(port, input))
}

/// Whether a port is fed by an input.
fn is_fed(port: &Port, input: u32) -> bool
    ensures fed { result ≡ true → port.now.feed ≡ Feed.Input input }
    ensures unfed { result ≡ false → port.now.feed ≢ Feed.Input input }
{
    port.feed == Feed::Input(input)
}

/// The line of the message last placed at an output. `Err` comes where memory ran out.
fn line_of(
    alloc: Global,
    handlers: &Handlers<'_>,
    output: u32,
    time: u64,
) -> Result<OutLine, AllocError>
    requires { placed_at handlers.now.channels (Output output) ≢ None }
    ensures time { IfOk result (λ line. line.time ≡ time) }
    ensures output { IfOk result (λ line. line.output ≡ output) }
    ensures values { IfOk result (λ line. placed_at handlers.now.channels (Output output) ≡ Some line.values) }
{
    Ok(OutLine {
        time,
        output,
        values: Vals::from_vec(handlers.shown(output).to_vec(alloc)?),
    })
}
