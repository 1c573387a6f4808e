//! Channels of as many ports and wires as there may be.
ghost use Rattle.std.specs.Prelude.{◌≡◌, ◌<◌, IfOk};
ghost use Rattle.yt_chan.specs.Changes.{IsInitial};
ghost use Rattle.yt_chan_tests.specs.Wide.{alone_where, wide_ports, wide_wire, wide_wires};

use std::alloc::{AllocError, Global};
use std::test::Fail;
use yt_chan::{Channels, Nums, Wire};

/// How many wires there may be: eight of each of 64 ports.
const WIRES: u32 = 512;

/// A number alone, where a test holds.
fn alone_where(alloc: Global, holds: bool, number: u32) -> Result<Nums, AllocError>
    ensures { IfOk result (λ numbers. numbers ≡ alone_where holds number) }
{
    let mut numbers = Nums::new(alloc);
    if holds {
        numbers.push(number)?;
    }
    Ok(numbers)
}

/// The wire at a place, from 0: the first 64 feed the ports, a wire each, and the next 16 the outputs.
#[tactic(auto, unfolding(crate::specs::Wide::wide_wire))]
fn wide_wire(alloc: Global, place: u32) -> Result<Wire, AllocError>
    requires { place < 512 }
    ensures { IfOk result (λ wire. wire ≡ wide_wire place) }
{
    Ok(Wire {
        port: place / 8 + 1,
        out: place % 8 + 1,
        width: 8,
        sends: 64,
        every: 1000,
        period: 1_000_000,
        gap: 15_625_000,
        ports: alone_where(alloc, place < 64, place + 1)?,
        outputs: alone_where(alloc, place >= 64 && place < 80, place.saturating_sub(63))?,
    })
}

/// As many wires as there may be.
fn wide_wires(alloc: Global) -> Result<Vec<Wire>, AllocError>
    ensures { IfOk result (λ wires. wires.items ≡ wide_wires 512) }
{
    let mut wires = Vec::new(alloc);
    for place in 0..WIRES {
        let wire = wide_wire(alloc, place)?;
        wires.push(wire)?;
    }
    Ok(wires)
}

/// Channels of as many ports and wires as there may be.
fn wide_channels(alloc: Global) -> Result<Channels, AllocError>
    ensures { IfOk result (λ channels. IsInitial wide_ports (wide_wires 512) channels) }
{
    let widths = vec![in alloc; 8; 64]?;
    let wires = wide_wires(alloc)?;
    Channels::with_room(alloc, &widths, &wires)
}

#[test]
fn channels_at_their_limits_have_room(rt: HostRuntime) -> Result<(), Fail> {
    let mut channels = wide_channels(rt.alloc())?;
    assert_eq!(rt; channels.next_due(), None);
    channels.put(64, &[1, -2, 3, -4, 5, -6, 7, i64::MIN]);
    assert_eq!(rt;
        channels.message(64),
        [1, -2, 3, -4, 5, -6, 7, i64::MIN].as_slice()
    );
    assert_eq!(rt; channels.next_due(), None);
    Ok(())
}
