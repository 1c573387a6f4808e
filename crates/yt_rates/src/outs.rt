//! What the outs of a port pass on.
ghost use Rattle.std.specs.Prelude.{◌≡◌, ◌+◌, ◌-◌, ◌*◌, ◌/◌, ◌≤◌, None, Some, length, IfOk, IfErr};
ghost use Rattle.std.specs.Option.{ForSome};
ghost use Rattle.std.specs.List.{All};
ghost use Rattle.yt_graph.specs.Picture.{port_tree};
ghost use Rattle.yt_graph.specs.WellFormed.{IsFineOut};
ghost use Rattle.yt_cost.specs.Codes.{ForCode, AreSendsOf};
ghost use Rattle.yt_set.specs.Limits.{most_ticks};
ghost use Rattle.yt_rates.specs.Limits.{most_reach};
ghost use Rattle.yt_rates.specs.Faults.{outs_fault, ArePassedWithin};
ghost use Rattle.yt_rates.specs.Tables.{ArePassedOn};

use crate::fault::RateFault;
use crate::stream::Stream;
use arrayvec::ArrayVec;
use yt_cost::Codes;
use yt_graph::Port;

/// The longest logical time from an input's message to one that comes of it, in ticks.
const MOST_REACH: u64 = 4_000_000;

/// What each out of the port of this number, from 1, passes on, or the fault of its first out that has one.
pub(crate) fn rate_outs(
    codes: &Codes,
    number: u32,
    port: &Port,
    stream: Stream,
) -> Result<ArrayVec<Stream, 8>, RateFault>
    requires first { 1 ≤ number }
    requires last { number ≤ length codes.now }
    requires sends { ForCode codes.now number (λ kept. AreSendsOf (port_tree port.now) kept.sends) }
    requires few { length port.now.outs ≤ 8 }
    requires fine { All IsFineOut port.now.outs }
    requires period { stream.period ≤ most_ticks }
    requires start { stream.start ≤ most_reach }
    ensures outs { IfOk result (λ outs. ArePassedOn (port_tree port.now) stream outs.items) }
    ensures limits { IfOk result (λ _. ArePassedWithin (port_tree port.now) stream (length port.now.outs)) }
    ensures no_fault { IfOk result (λ _. outs_fault number (port_tree port.now) stream 1 port.now.outs ≡ None) }
    ensures err { IfErr result (λ fault. outs_fault number (port_tree port.now) stream 1 port.now.outs ≡ Some fault) }
{
    let mut outs = ArrayVec::new();
    for place in 0..port.outs.len() {
        let out = place as u32 + 1;
        let sends = codes.sends(number, out);
        if sends == 0 {
            return Err(RateFault::Zero { port: number, out });
        }
        let passed = passed_on(stream, port.outs.at(place).every, sends);
        if passed.period == 0 {
            return Err(RateFault::Zero { port: number, out });
        }
        if passed.start > MOST_REACH {
            return Err(RateFault::Span { port: number });
        }
        outs.push(passed);
    }
    Ok(outs)
}

/// What an out passes on where these messages come to its port, each `every`-th job passes its own on, and a job sends at most
/// `sends`.
fn passed_on(stream: Stream, every: u32, sends: u32) -> Stream
    requires some { 1 ≤ sends }
    requires every { every ≤ 1000 }
    requires period { stream.period ≤ most_ticks }
    requires start { stream.start ≤ most_reach }
    ensures period { result.period ≡ every * stream.period / sends }
    ensures start { result.start ≡ stream.start + stream.period + (sends - 1) * (every * stream.period / sends) }
{
    let gap = u64::from(every) * stream.period / u64::from(sends);
    Stream {
        period: gap,
        start: stream.start + stream.period + u64::from(sends - 1) * gap,
    }
}
