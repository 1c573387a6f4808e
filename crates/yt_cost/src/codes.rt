//! What is kept of a graph's handlers.

ghost use Rattle.std.specs.Prelude.{◌≡◌, ◌≤◌, length};
ghost use Rattle.std.specs.List.{All};
ghost use Rattle.yt_list.specs.Numbered.{numbered_or};
ghost use Rattle.yt_cost.specs.Codes.{ForCode, IsCodeWithin};

use arrayvec::ArrayVec;
use std::marker::Model;
use yt_code::Code;
use yt_graph::MOST_OUTS;
use yt_list::Items;

/// What is kept of a port. A contract sees the code, the greatest cost, and the list of the greatest numbers of sends.
#[derive(Drop)]
pub(crate) struct Kept {
    /// The code of its handler.
    pub code: Code,
    /// The most ticks that a handling may take.
    pub cost: u64,
    /// The most messages that a handling may send on each out.
    pub sends: ArrayVec<u32, MOST_OUTS>,
}

impl Model for Kept {
    ghost use Rattle.yt_cost.specs.Codes.{PortCode};

    ghost Value = { PortCode };

    ghost view = { λ k. record {
      code = k.code;
      cost = k.cost;
      sends = k.sends.items;
    } };
}

/// The code of each port of a graph, with the most ticks and sends that a handling may take. A contract sees the list of
/// these by place, so the port of number 1 is at place 0.
#[derive(Drop)]
pub struct Codes {
    ports: Items<Kept>,
}

impl Model for Codes {
    ghost use Rattle.std.specs.Prelude.{List};
    ghost use Rattle.std.specs.List.{All};
    ghost use Rattle.yt_cost.specs.Codes.{PortCode, IsCodeWithin};

    ghost Value = { List PortCode };

    ghost view = { λ c. c.ports };

    ghost invariant = { λ c. All IsCodeWithin c.ports };
}

impl Codes {
    // The codes of ports in order, which are within the limits.
    pub(crate) fn new(ports: Items<Kept>) -> Self
        requires { All IsCodeWithin ports }
        ensures { result ≡ ports }
    {
        Codes { ports }
    }

    /// How many ports there are. Whatever the codes, no handler may take more ticks or send more messages than it may.
    pub fn len(&self) -> usize
        ensures len { result ≡ length self.now }
        ensures limits { All IsCodeWithin self.now }
    {
        self.ports.len()
    }

    /// The code of the port of this number, from 1. The caller shows that the port is there.
    pub fn code(&self, port: u32) -> &Code
        requires first { 1 ≤ port }
        requires last { port ≤ length self.now }
        ensures { ForCode self.now port (λ kept. result.now ≡ kept.code) }
    {
        &self.ports.at(port as usize - 1).code
    }

    /// The most ticks that a handling on the port of this number, from 1, may take. The caller shows that the port is there.
    pub fn cost(&self, port: u32) -> u64
        requires first { 1 ≤ port }
        requires last { port ≤ length self.now }
        ensures { ForCode self.now port (λ kept. result ≡ kept.cost) }
    {
        self.ports.at(port as usize - 1).cost
    }

    /// The most messages that a handling on the port of this number may send on the out of this number, both from 1. The
    /// caller shows that both are there.
    pub fn sends(&self, port: u32, out: u32) -> u32
        requires first { 1 ≤ port }
        requires last { port ≤ length self.now }
        requires first_out { 1 ≤ out }
        requires last_out { ForCode self.now port (λ kept. out ≤ length kept.sends) }
        ensures { ForCode self.now port (λ kept. result ≡ numbered_or kept.sends out 0) }
    {
        self.ports.at(port as usize - 1).sends[out as usize - 1]
    }
}
