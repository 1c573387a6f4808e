//! What is kept of a graph's rates.
ghost use Rattle.std.specs.Prelude.{◌≡◌, ◌≤◌, length, IsSomeAnd};
ghost use Rattle.std.specs.List.{All};
ghost use Rattle.yt_list.specs.Numbered.{numbered};
ghost use Rattle.yt_set.specs.Limits.{most_ticks};
ghost use Rattle.yt_rates.specs.Tables.{ForRates, IsKeptWithin};

use crate::stream::Stream;
use arrayvec::ArrayVec;
use std::marker::Model;

/// What is kept of a port. A contract sees the messages that come to it, and the list of those that its outs pass on.
#[derive(Drop)]
pub(crate) struct Kept {
    /// The messages that come to the port.
    pub stream: Stream,
    /// The messages that each out passes on.
    pub outs: ArrayVec<Stream, 8>,
}

impl Model for Kept {
    ghost use Rattle.yt_rates.specs.Tables.{PortRates};

    ghost Value = { PortRates };

    ghost view = { λ k. record {
      stream = k.stream;
      outs = k.outs.items;
    } };
}

/// The rates of each port of a graph. A contract sees the list of these by place, so the port of number 1 is at place 0.
#[derive(Drop)]
pub struct RateTable {
    ports: Vec<Kept>,
}

impl Model for RateTable {
    ghost use Rattle.std.specs.Prelude.{List};
    ghost use Rattle.std.specs.List.{All};
    ghost use Rattle.yt_rates.specs.Tables.{PortRates, IsKeptWithin};

    ghost Value = { List PortRates };

    ghost view = { λ r. r.ports.items };

    ghost invariant = { λ r. All IsKeptWithin r.ports.items };
}

impl RateTable {
    /// The rates of ports in order, which are within their limits.
    pub(crate) fn new(ports: Vec<Kept>) -> Self
        requires { All IsKeptWithin ports.items }
        ensures { result ≡ ports.items }
    {
        RateTable { ports }
    }

    /// The least time between two messages at the port of this number, from 1, in ticks: from 1 to 1,000,000, whatever the rates. The
    /// caller shows that the port is there.
    pub fn period(&self, port: u32) -> u64
        requires first { 1 ≤ port }
        requires last { port ≤ length self.now }
        ensures value { ForRates self.now port (λ kept. result ≡ kept.stream.period) }
        ensures positive { 1 ≤ result }
        ensures short { result ≤ most_ticks }
    {
        self.ports[port as usize - 1].stream.period
    }

    /// The least time between two messages of the out of this number of the port of this number, both from 1, in ticks. The
    /// caller shows that both are there.
    pub fn gap(&self, port: u32, out: u32) -> u64
        requires first { 1 ≤ port }
        requires last { port ≤ length self.now }
        requires first_out { 1 ≤ out }
        requires last_out { ForRates self.now port (λ kept. out ≤ length kept.outs) }
        ensures { ForRates self.now port (λ kept. IsSomeAnd (numbered kept.outs out) (λ s. result ≡ s.period)) }
    {
        self.ports[port as usize - 1].outs[out as usize - 1].period
    }

    /// The longest logical time from an input's message to a message at the port of this number, from 1, that comes of it, in
    /// ticks: 0 for a port that an input feeds. The caller shows that the port is there.
    pub fn start(&self, port: u32) -> u64
        requires first { 1 ≤ port }
        requires last { port ≤ length self.now }
        ensures { ForRates self.now port (λ kept. result ≡ kept.stream.start) }
    {
        self.ports[port as usize - 1].stream.start
    }
}
