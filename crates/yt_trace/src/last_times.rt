//! The time of each input's last message so far.
ghost use Rattle.std.specs.Prelude.{◌≡◌, ◌≤◌, [], ◌∷◌, ◌++◌, List, None};
ghost use Rattle.yt_graph.specs.Limits.{most_inputs};
ghost use Rattle.yt_list.specs.Numbered.{numbered_or};
ghost use Rattle.yt_trace.specs.declared.message.Message.{Message};
ghost use Rattle.yt_trace.specs.Inside.Reading.{AreLast};

use yt_graph::MOST_INPUTS;
use yt_list::numbered;

/// The time of the last message so far of each input, by its number from 1.
#[derive(Drop)]
pub(crate) struct LastTimes {
    times: [Option<u64>; MOST_INPUTS],
}

impl LastTimes {
    /// No message yet.
    pub(crate) fn new() -> Self
        ensures { AreLast result.times [] }
    {
        LastTimes {
            times: [None; MOST_INPUTS],
        }
    }

    /// The time of an input's last message; `None` where it has none.
    pub(crate) fn of(&self, input: u32) -> Option<u64>
        ensures { result ≡ numbered_or self.now.times input None }
    {
        *numbered(&self.times, input)?
    }

    /// Takes a tick as the time of an input's last message.
    pub(crate) fn see(&mut self, input: u32, time: u64)
        requires positive { 1 ≤ input }
        requires within { input ≤ most_inputs }
        ensures { (before : List Message) (m : Message) → AreLast self.old.times before → m.input ≡ input → m.time ≡ time → AreLast self.new.times (before ++ m ∷ []) }
    {
        self.times[input as usize - 1] = Some(time);
    }
}
