//! Reads a trace line by line.
ghost use Rattle.std.specs.Prelude.{◌≡◌, ◌≤◌, [], ◌∷◌, ◌++◌, length, None, Some, Ok, Err, IfNone, IfOk, IfSome, MatchOption, MatchResult};
ghost use Rattle.yt_graph.specs.Limits.{most_period};
ghost use Rattle.yt_list.specs.Numbered.{numbered};
ghost use Rattle.yt_trace.specs.Limits.{most_time};
ghost use Rattle.yt_trace.specs.Traces.{KeepsPeriodsOf};
ghost use Rattle.yt_trace.specs.TraceText.{input_named, judged_input, least_time, message_fault};
ghost use Rattle.yt_trace.specs.Inside.Reading.{AreInputs, IsFine, IsNext, judged_so_far};

use crate::last_times::LastTimes;
use crate::limits::{MOST_MESSAGES, MOST_TIME};
use crate::message::Message;
use crate::message_fault::MessageFault;
use crate::message_line::{MessageLine, values_of};
use crate::trace::Trace;
use std::alloc::{AllocError, Global};
use std::marker::Model;
use yt_base::{LineError, LineReader};
use yt_graph::Input;
use yt_table::NameTable;

/// What the lines so far say. A contract sees the inputs and the messages.
#[derive(Drop)]
pub(crate) struct Reader<'a> {
    alloc: Global,
    inputs: NameTable<'a, Input>,
    trace: Trace,
    last: LastTimes,
}

impl<'a> Model for Reader<'a> {
    ghost use Rattle.yt_trace.specs.Inside.Reading.{TraceSoFar, IsSoFar};

    ghost Value = { TraceSoFar };

    ghost view = { λ r. record { inputs = r.inputs; trace = r.trace } };

    ghost invariant = { λ r. IsSoFar (record { inputs = r.inputs; trace = r.trace }) r.last.times };
}

impl<'a> Reader<'a> {
    /// No line yet. The caller shows that there are no more inputs than a graph has, and no longer periods.
    pub(crate) fn new(alloc: Global, inputs: &'a [Input]) -> Result<Self, AllocError>
        requires { AreInputs inputs.now }
        ensures { IfOk result (λ read. read ≡ record { inputs = inputs.now; trace = [] }) }
    {
        Ok(Reader {
            alloc,
            inputs: NameTable::new(alloc, inputs)?,
            trace: Trace::new(alloc),
            last: LastTimes::new(),
        })
    }

    /// The first input of a name, and its number, from 1; `None` exactly where no input has the name.
    fn input_named(&self, name: &[u8]) -> Option<(u32, &Input)>
        ensures { MatchOption result
            (input_named self.now.inputs name.now ≡ None)
            (λ found. (input_named self.now.inputs name.now ≡ Some found.0) × (numbered self.now.inputs found.0 ≡ Some found.1.now)) }
    {
        let place = self.inputs.find(name)?;
        Some((place as u32 + 1, &self.inputs.all()[place]))
    }

    /// The number of the input that a name says, from 1, of which so wide a message may come next at this tick; or the first fault.
    fn judge(&self, time: u64, name: &[u8], width: usize) -> Result<u32, MessageFault>
        ensures answer { MatchResult result
            (λ input. judged_input self.now.inputs self.now.trace time name.now width ≡ Ok input)
            (λ fault. judged_input self.now.inputs self.now.trace time name.now width ≡ Err fault) }
        ensures next { IfOk result (λ input. IsNext self.now input time width) }
    {
        let Some((number, input)) = self.input_named(name) else {
            return Err(MessageFault::Unknown);
        };
        let last = self.last.of(number);
        let latest = self.trace.latest_time();
        match message_fault(input, last, latest, self.trace.len(), time, width) {
            Some(fault) => Err(fault),
            None => Ok(number),
        }
    }

    /// Adds a message behind those that are there.
    fn add(self, message: Message) -> Result<Self, AllocError>
        requires { IsNext self message.input message.time (length message.values) }
        ensures { IfOk result (λ read. read ≡ record { inputs = self.entry.inputs; trace = self.entry.trace ++ message ∷ [] }) }
    {
        let Reader {
            alloc,
            inputs,
            mut trace,
            mut last,
        } = self;
        let (input, time) = (message.input, message.time);
        trace.push(message)?;
        last.see(input, time);
        Ok(Reader {
            alloc,
            inputs,
            trace,
            last,
        })
    }

    /// The trace that all lines say.
    pub(crate) fn finish(self) -> Trace
        ensures trace { result ≡ self.entry.trace }
        ensures keeps { KeepsPeriodsOf self.entry.inputs result }
    {
        self.trace
    }
}

impl<'a, 'b> LineReader<'b> for Reader<'a> {
    type Fault = MessageFault;

    ghost judged = { judged_so_far };

    fn read_line(self, line: &'b [u8]) -> Result<Self, LineError<MessageFault>> {
        let Some(said) = MessageLine::new(line) else {
            return Err(LineError::Fault(MessageFault::Form));
        };
        let Some(values) = values_of(self.alloc, said.values)? else {
            return Err(LineError::Fault(MessageFault::Form));
        };
        match self.judge(said.time, said.input, values.len()) {
            Err(fault) => Err(LineError::Fault(fault)),
            Ok(input) => Ok(self.add(Message {
                time: said.time,
                input,
                values,
            })?),
        }
    }
}

/// The first fault of the next message of an input, after its last one, where there are so many messages so far, of which the last
/// comes at `latest`.
fn message_fault(
    input: &Input,
    last: Option<u64>,
    latest: u64,
    messages: usize,
    time: u64,
    width: usize,
) -> Option<MessageFault>
    requires last { IfSome last (λ t. t ≤ most_time) }
    requires period { input.now.period ≤ most_period }
    ensures answer { result ≡ message_fault input.now.width input.now.period last latest messages time width }
    ensures fine { IfNone result (IsFine input.now last latest messages time width) }
{
    if width != input.width as usize {
        return Some(MessageFault::Width);
    }
    if MOST_TIME < time {
        return Some(MessageFault::Late);
    }
    if time < latest {
        return Some(MessageFault::Order);
    }
    let least = least_time(last, input.period);
    if time < least {
        return Some(MessageFault::Soon(least));
    }
    if MOST_MESSAGES <= messages {
        return Some(MessageFault::Many);
    }
    None
}

/// The least tick at which an input's next message may come, after its last one.
fn least_time(last: Option<u64>, period: u64) -> u64
    requires last { IfSome last (λ t. t ≤ most_time) }
    requires period { period ≤ most_period }
    ensures { result ≡ least_time period last }
{
    match last {
        Some(time) => time + period,
        None => 0,
    }
}
