//! Messages on one wire and on two, call by call.
ghost use Rattle.std.specs.Prelude.{◌≡◌, ℕ, [], ◌∷◌, IfOk, length, true};
ghost use Rattle.yt_chan_tests.specs.Example.{at_start, CanClose, CanDeliver, CanFill, CanSend, IsKnown, Known, begun, closed, delivered, filled, one_wire, sent, three_ports, wire_of, first_of_two, second_of_two};
ghost use Rattle.yt_chan.specs.Wires.{IsWire};

use std::alloc::{AllocError, Global};
use std::test::Fail;
use yt_chan::{Arrived, Channels, Nums, Wire};
use yt_log::Job;

fn nums(alloc: Global, items: &[u32]) -> Result<Nums, AllocError>
    ensures { IfOk result (λ nums. nums ≡ items.now) }
{
    Ok(Nums::from_vec(Vec::from_slice(alloc, items)?))
}

/// A wire of out 1 of a port, of one number a message, whose jobs arrive 10 ticks apart.
fn wire(
    alloc: Global,
    port: u32,
    sends: u32,
    every: u32,
    gap: u64,
    ports: &[u32],
    outputs: &[u32],
) -> Result<Wire, AllocError>
    ensures { IfOk result (λ wire. wire ≡ wire_of port sends every gap ports.now outputs.now) }
{
    Ok(Wire {
        port,
        out: 1,
        width: 1,
        sends,
        every,
        period: 10,
        gap,
        ports: nums(alloc, ports)?,
        outputs: nums(alloc, outputs)?,
    })
}

/// Three ports of one number a message, and a wire of port 1.
fn channels(
    alloc: Global,
    sends: u32,
    every: u32,
    gap: u64,
    ports: &[u32],
    outputs: &[u32],
) -> Result<Channels, AllocError>
    requires { IsWire three_ports (one_wire sends every gap ports.now outputs.now) }
    ensures { IfOk result (λ channels. IsKnown channels (at_start (one_wire sends every gap ports.now outputs.now ∷ []))) }
{
    let wire = wire(alloc, 1, sends, every, gap, ports, outputs)?;
    Channels::with_room(alloc, &[1, 1, 1], &[wire])
}

/// Three ports of one number a message, a wire from port 1 to port 2 and output 1, and one from port 2 to port 3 and output 2.
fn two_wires(alloc: Global) -> Result<Channels, AllocError>
    ensures { IfOk result (λ channels. IsKnown channels (at_start (first_of_two ∷ second_of_two ∷ []))) }
{
    let first = wire(alloc, 1, 1, 1, 10, &[2], &[1])?;
    let second = wire(alloc, 2, 1, 1, 10, &[3], &[2])?;
    Channels::with_room(alloc, &[1, 1, 1], &[first, second])
}

/// Sends these messages on a port's wire.
fn send(channels: &mut Channels, port: u32, values: &[i64])
    requires { (known : Known) × IsKnown channels.old known × ((number : ℕ) × CanSend known port (length values.now) number) }
    ensures { (known : Known) → IsKnown channels.old known → IsKnown channels.new (sent known port values.now) }
{
    for value in values {
        channels.send(port, 1, &[*value]);
    }
}

/// Puts a message at a port, whose job sends these.
fn fill(channels: &mut Channels, port: u32, values: &[i64])
    requires { (known : Known) × IsKnown channels.old known × ((number : ℕ) × CanFill known port (length values.now) number) }
    ensures { (known : Known) → IsKnown channels.old known → IsKnown channels.new (filled known port values.now) }
{
    channels.put(port, &[0]);
    send(channels, port, values);
}

/// Closes a job.
fn close(channels: &mut Channels, port: u32, number: u32, arrival: u64)
    requires { (known : Known) × IsKnown channels.old known × CanClose known port number arrival }
    ensures { (known : Known) → IsKnown channels.old known → IsKnown channels.new (closed known port number arrival) }
{
    channels.close_job(Job { task: port, number }, arrival);
}

/// Whether the message that is placed next at `now` is placed at a target, and is this one.
fn comes(channels: &mut Channels, now: u64, target: Arrived, value: i64) -> bool
    requires { (known : Known) × IsKnown channels.old known × CanDeliver known now }
    ensures { result ≡ true → (known : Known) → IsKnown channels.old known → IsKnown channels.new (delivered known target) }
{
    match (channels.deliver_one(now), target) {
        (Some(Arrived::Port(port)), Arrived::Port(wanted)) => {
            port == wanted && channels.message(port) == [value].as_slice()
        }
        (Some(Arrived::Output(output)), Arrived::Output(wanted)) => {
            output == wanted && channels.shown(output) == [value].as_slice()
        }
        _ => false,
    }
}

/// Whether no message is due at `now`.
fn none_comes(channels: &mut Channels, now: u64) -> bool
    requires { (known : Known) × IsKnown channels.old known × CanDeliver known now }
    ensures { result ≡ true → (known : Known) → IsKnown channels.old known → IsKnown channels.new known }
{
    channels.deliver_one(now).is_none()
}

#[test]
fn nothing_waits_at_first(rt: HostRuntime) -> Result<(), Fail> {
    let mut channels = channels(rt.alloc(), 1, 1, 10, &[], &[1])?;
    assert_eq!(rt; channels.next_due(), None);
    assert!(rt; none_comes(&mut channels, 0));
    Ok(())
}

#[test]
fn messages_wait_while_the_next_job_sends(rt: HostRuntime) -> Result<(), Fail> {
    let mut channels = channels(rt.alloc(), 3, 1, 3, &[], &[1])?;
    fill(&mut channels, 1, &[1, 2, 3]);
    assert_eq!(rt; channels.next_due(), None);
    close(&mut channels, 1, 1, 0);
    assert_eq!(rt; channels.next_due(), Some(10));
    assert!(rt; comes(&mut channels, 10, Arrived::Output(1), 1));
    fill(&mut channels, 1, &[4, 5]);
    assert_eq!(rt; channels.next_due(), Some(13));
    close(&mut channels, 1, 2, 10);
    assert!(rt; comes(&mut channels, 13, Arrived::Output(1), 2));
    assert!(rt; comes(&mut channels, 16, Arrived::Output(1), 3));
    assert_eq!(rt; channels.next_due(), Some(20));
    assert!(rt; comes(&mut channels, 20, Arrived::Output(1), 4));
    assert!(rt; none_comes(&mut channels, 20));
    assert_eq!(rt; channels.next_due(), Some(23));
    Ok(())
}

#[test]
fn every_second_job_passes(rt: HostRuntime) -> Result<(), Fail> {
    let mut channels = channels(rt.alloc(), 4, 2, 5, &[], &[1])?;
    fill(&mut channels, 1, &[1, 2]);
    close(&mut channels, 1, 1, 0);
    assert_eq!(rt; channels.next_due(), None);
    fill(&mut channels, 1, &[3, 4]);
    close(&mut channels, 1, 2, 10);
    assert_eq!(rt; channels.next_due(), Some(20));
    assert!(rt; comes(&mut channels, 20, Arrived::Output(1), 3));
    assert_eq!(rt; channels.next_due(), Some(25));
    Ok(())
}

#[test]
fn messages_without_a_target_are_dropped(rt: HostRuntime) -> Result<(), Fail> {
    let mut channels = channels(rt.alloc(), 2, 1, 5, &[], &[])?;
    fill(&mut channels, 1, &[1, 2]);
    close(&mut channels, 1, 1, 0);
    assert_eq!(rt; channels.next_due(), None);
    fill(&mut channels, 1, &[3]);
    assert!(rt; none_comes(&mut channels, 10));
    Ok(())
}

#[test]
fn ports_come_before_outputs(rt: HostRuntime) -> Result<(), Fail> {
    let mut channels = channels(rt.alloc(), 1, 1, 10, &[3, 2], &[2, 1])?;
    fill(&mut channels, 1, &[6]);
    close(&mut channels, 1, 1, 0);
    assert_eq!(rt; channels.next_due(), Some(10));
    assert!(rt; comes(&mut channels, 10, Arrived::Port(2), 6));
    assert!(rt; comes(&mut channels, 10, Arrived::Port(3), 6));
    assert!(rt; comes(&mut channels, 10, Arrived::Output(1), 6));
    assert_eq!(rt; channels.next_due(), Some(10));
    assert!(rt; comes(&mut channels, 10, Arrived::Output(2), 6));
    assert!(rt; none_comes(&mut channels, 10));
    assert_eq!(rt; channels.next_due(), None);
    Ok(())
}

#[test]
fn a_job_that_sends_nothing_changes_no_tick(rt: HostRuntime) -> Result<(), Fail> {
    let mut channels = channels(rt.alloc(), 3, 1, 3, &[], &[1])?;
    fill(&mut channels, 1, &[1, 2]);
    close(&mut channels, 1, 1, 0);
    assert!(rt; comes(&mut channels, 10, Arrived::Output(1), 1));
    fill(&mut channels, 1, &[]);
    close(&mut channels, 1, 2, 10);
    assert_eq!(rt; channels.next_due(), Some(13));
    assert!(rt; comes(&mut channels, 13, Arrived::Output(1), 2));
    assert_eq!(rt; channels.next_due(), None);
    Ok(())
}

#[test]
fn wires_go_side_by_side(rt: HostRuntime) -> Result<(), Fail> {
    let mut channels = two_wires(rt.alloc())?;
    fill(&mut channels, 1, &[6]);
    fill(&mut channels, 2, &[7]);
    close(&mut channels, 1, 1, 0);
    assert_eq!(rt; channels.next_due(), Some(10));
    close(&mut channels, 2, 1, 0);
    assert!(rt; comes(&mut channels, 10, Arrived::Port(2), 6));
    assert!(rt; comes(&mut channels, 10, Arrived::Port(3), 7));
    assert!(rt; comes(&mut channels, 10, Arrived::Output(1), 6));
    assert!(rt; comes(&mut channels, 10, Arrived::Output(2), 7));
    assert!(rt; none_comes(&mut channels, 10));
    assert_eq!(rt; channels.next_due(), None);
    Ok(())
}
