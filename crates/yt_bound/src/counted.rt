//! How many messages of each input a trace has.
ghost use Rattle.std.specs.Prelude.{◌≡◌, ℕ, ◌<◌, ◌≤◌, List, ◌∷◌, length, slice_index_or};
ghost use Rattle.yt_graph.specs.Limits.{most_inputs};
ghost use Rattle.yt_trace.specs.declared.message.Message.{Message};
ghost use Rattle.yt_trace.specs.Limits.{most_trace};
ghost use Rattle.yt_trace.specs.Traces.{messages_of};
ghost use Rattle.yt_bound.specs.Inside.Counting.{AreCounted, AreCountsOf};

use yt_graph::MOST_INPUTS;
use yt_trace::Trace;

/// A trace, and how many messages of each input it has.
#[derive(Drop)]
pub(crate) struct CountedTrace<'a> {
    pub(crate) trace: &'a Trace,
    /// By the inputs' places from 0.
    pub(crate) counts: [u64; MOST_INPUTS],
}

impl<'a> CountedTrace<'a> {
    /// Counts the messages of a trace, in one pass over them.
    pub(crate) fn of(trace: &'a Trace) -> Self
        ensures trace { result.trace.now ≡ trace.now }
        ensures counts { AreCountsOf trace.now result.counts }
    {
        let mut counts = [0; MOST_INPUTS];
        for message in trace.messages() {
            count_message(&mut counts, message.input);
        }
        CountedTrace { trace, counts }
    }

    /// How many messages of an input there are, by its number from 1. The caller shows that a graph may have it.
    pub(crate) fn messages_of(&self, input: u32) -> u64
        requires counts { AreCountsOf self.now.trace.now self.now.counts }
        requires some { 1 ≤ input }
        requires within { input ≤ most_inputs }
        ensures { result ≡ length (messages_of input self.now.trace.now) }
    {
        self.counts[input as usize - 1]
    }
}

/// Counts a message of an input, by its number; where no graph has an input of that number, nothing changes.
fn count_message(counts: &mut [u64; MOST_INPUTS], input: u32)
    requires { (place : ℕ) → place < most_inputs → slice_index_or counts.old place 0 ≤ most_trace }
    ensures { (trace rest : List Message) (m : Message) → m.input ≡ input → AreCounted trace (m ∷ rest) counts.old → AreCounted trace rest counts.new }
{
    if 1 <= input && input as usize <= MOST_INPUTS {
        counts[input as usize - 1] += 1;
    }
}
