//! When the next message of each target is due.
ghost use Rattle.std.specs.Prelude.{◌≡◌, ℕ, ◌+◌, ◌*◌, ◌<◌, ◌≤◌, length, true, slice_index_or};
ghost use Rattle.yt_chan.specs.declared.target.Arrived.{Arrived};
ghost use Rattle.yt_chan.specs.Inside.Next.{Adds, AmongOutputs, AmongPorts, AreNext, next_at, targets_of};
ghost use Rattle.yt_chan.specs.Limits.{most_outs};
ghost use Rattle.yt_chan.specs.Inside.Sound.{arrived, IsTable, AreReadable, CanArrive, StartsHandlingIn, IsPut, IsThere, inbox_of, table_place};
ghost use Rattle.yt_chan.specs.Wires.{feeds, wire_to, wire_at};

use crate::heads::{Head, Heads};
use crate::inbox::Inbox;
use crate::limits::MOST_OUTS;
use crate::port::PortJob;
use crate::queue::WireQueue;
use crate::target::Arrived;
use crate::wire::{Wire, table_at};

/// What tells the next message of each target: the wires and their queues, by place from 0, and what each port and each output has, by
/// number.
#[derive(Clone, Copy)]
pub(crate) struct Kept<'a> {
    pub(crate) wires: &'a [Wire],
    pub(crate) queues: &'a [WireQueue],
    pub(crate) ports: &'a [Inbox],
    pub(crate) outputs: &'a [Inbox],
}

/// What a target has.
fn inbox_of<'a>(ports: &'a [Inbox], outputs: &'a [Inbox], target: Arrived) -> &'a Inbox
    requires { IsThere ports.now outputs.now target }
    ensures { (wires : ℕ) → result.now ≡ inbox_of wires ports.now outputs.now target }
{
    match target {
        Arrived::Port(port) => &ports[port as usize],
        Arrived::Output(output) => &outputs[output as usize],
    }
}

/// The tick at which the next message of a target is due; `None` where none waits.
fn time_of(kept: &Kept<'_>, target: Arrived) -> Option<u64>
    requires readable { AreReadable kept.now.wires.now kept.now.queues.now kept.now.ports.now kept.now.outputs.now }
    requires there { IsThere kept.now.ports.now kept.now.outputs.now target }
    ensures { result ≡ next_at (targets_of kept.now.wires.now kept.now.queues.now kept.now.ports.now kept.now.outputs.now) target }
{
    let (wires, queues) = (kept.wires, kept.queues);
    let inbox = inbox_of(kept.ports, kept.outputs, target);
    if inbox.wire >= queues.len() {
        return None;
    }
    let queue = &queues[inbox.wire];
    let taken = (inbox.next - queue.first) as usize;
    if taken < queue.count() {
        Some(queue.time(taken, wires[inbox.wire].gap))
    } else {
        None
    }
}

/// Adds the head of a target, where a message waits for it and its head isn't there yet.
pub(crate) fn add_next(kept: &Kept<'_>, target: Arrived, heads: &mut Heads)
    requires readable { AreReadable kept.now.wires.now kept.now.queues.now kept.now.ports.now kept.now.outputs.now }
    requires there { IsThere kept.now.ports.now kept.now.outputs.now target }
    requires next { AreNext (targets_of kept.now.wires.now kept.now.queues.now kept.now.ports.now kept.now.outputs.now) heads.old }
    ensures { Adds (targets_of kept.now.wires.now kept.now.queues.now kept.now.ports.now kept.now.outputs.now) heads.old heads.new (λ t. t ≡ target) }
{
    if let Some(time) = time_of(kept, target) {
        heads.add(Head { time, target });
    }
}

/// Adds the heads of these ports.
fn add_ports(kept: &Kept<'_>, numbers: &[u32], heads: &mut Heads)
    requires readable { AreReadable kept.now.wires.now kept.now.queues.now kept.now.ports.now kept.now.outputs.now }
    requires there { (k : ℕ) → k < length numbers.now → slice_index_or numbers.now k 0 < length kept.now.ports.now }
    requires next { AreNext (targets_of kept.now.wires.now kept.now.queues.now kept.now.ports.now kept.now.outputs.now) heads.old }
    ensures { Adds (targets_of kept.now.wires.now kept.now.queues.now kept.now.ports.now kept.now.outputs.now) heads.old heads.new (AmongPorts numbers.now (length numbers.now)) }
{
    for number in numbers {
        add_next(kept, Arrived::Port(*number), heads);
    }
}

/// Adds the heads of these outputs.
fn add_outputs(kept: &Kept<'_>, numbers: &[u32], heads: &mut Heads)
    requires readable { AreReadable kept.now.wires.now kept.now.queues.now kept.now.ports.now kept.now.outputs.now }
    requires there { (k : ℕ) → k < length numbers.now → slice_index_or numbers.now k 0 < length kept.now.outputs.now }
    requires next { AreNext (targets_of kept.now.wires.now kept.now.queues.now kept.now.ports.now kept.now.outputs.now) heads.old }
    ensures { Adds (targets_of kept.now.wires.now kept.now.queues.now kept.now.ports.now kept.now.outputs.now) heads.old heads.new (AmongOutputs numbers.now (length numbers.now)) }
{
    for number in numbers {
        add_next(kept, Arrived::Output(*number), heads);
    }
}

/// Adds the heads of the targets of the wire at place `k`, counted from 0.
fn add_wire(kept: &Kept<'_>, k: usize, heads: &mut Heads)
    requires readable { AreReadable kept.now.wires.now kept.now.queues.now kept.now.ports.now kept.now.outputs.now }
    requires there { k < length kept.now.wires.now }
    requires next { AreNext (targets_of kept.now.wires.now kept.now.queues.now kept.now.ports.now kept.now.outputs.now) heads.old }
    ensures { Adds (targets_of kept.now.wires.now kept.now.queues.now kept.now.ports.now kept.now.outputs.now) heads.old heads.new (λ t. feeds (wire_at kept.now.wires.now k) t ≡ true) }
{
    let wires = kept.wires;
    let wire = &wires[k];
    add_ports(kept, wire.ports.as_slice(), heads);
    add_outputs(kept, wire.outputs.as_slice(), heads);
}

/// Adds the heads of all targets that the wires of a port feed.
pub(crate) fn add_job(kept: &Kept<'_>, table: &[usize], task: u32, heads: &mut Heads)
    requires readable { AreReadable kept.now.wires.now kept.now.queues.now kept.now.ports.now kept.now.outputs.now }
    requires table { IsTable kept.now.wires.now table.now }
    requires there { (1 ≤ task) × (table_place task most_outs < length table.now) }
    requires next { AreNext (targets_of kept.now.wires.now kept.now.queues.now kept.now.ports.now kept.now.outputs.now) heads.old }
    ensures { Adds (targets_of kept.now.wires.now kept.now.queues.now kept.now.ports.now kept.now.outputs.now) heads.old heads.new (λ t. (wire_at kept.now.wires.now (wire_to kept.now.wires.now t)).port ≡ task) }
{
    let wires = kept.wires;
    for out in 1..MOST_OUTS + 1 {
        let k = table_at(table, task, out);
        if k < wires.len() {
            add_wire(kept, k, heads);
        }
    }
}

/// Places a target's next message there. The caller shows that one waits.
fn arrive(queues: &[WireQueue], inbox: &mut Inbox)
    requires { CanArrive queues.now inbox.old }
    ensures { inbox.new ≡ arrived queues.now inbox.old }
{
    let queue = &queues[inbox.wire];
    let taken = (inbox.next - queue.first) as usize;
    inbox.put(queue.values(taken));
    inbox.next += 1;
}

/// Places the next message of a target there; a port's message is in handling from then on. The caller shows that one waits.
pub(crate) fn deliver_next(
    queues: &[WireQueue],
    jobs: &mut [PortJob],
    ports: &mut [Inbox],
    outputs: &mut [Inbox],
    target: Arrived,
)
    requires there { IsThere ports.old outputs.old target }
    requires long { length jobs.old ≡ length ports.old }
    requires can { (wires : ℕ) → CanArrive queues.now (inbox_of wires ports.old outputs.old target) }
    ensures placed { (wires : ℕ) → IsPut (inbox_of wires ports.old outputs.old) (inbox_of wires ports.new outputs.new) target (arrived queues.now (inbox_of wires ports.old outputs.old target)) }
    ensures handled { StartsHandlingIn jobs.old jobs.new target }
{
    match target {
        Arrived::Port(port) => {
            arrive(queues, &mut ports[port as usize]);
            jobs[port as usize].in_handling = true;
        }
        Arrived::Output(output) => arrive(queues, &mut outputs[output as usize]),
    }
}
