//! What can be too much of a graph's handlers.

ghost use Rattle.std.specs.Prelude.{◌≡◌};
ghost use Rattle.yt_cost.specs.declared.fault.CostFault.TheVariants.{Memory};

use std::alloc::AllocError;

/// Why the handlers of a graph were not compiled. Ports and outs are numbered from 1.
#[derive(Clone, Copy, Debug, PartialEq, Eq)]
pub enum CostFault {
    /// The greatest cost of this port's handler is more than [`MOST_TICKS`](crate::MOST_TICKS): it is so many, or that many or
    /// more where this is 2^64 - 1.
    Long { port: u32, ticks: u64 },
    /// The greatest number of messages that this port's handler sends on this out is more than
    /// [`MOST_SENDS`](crate::MOST_SENDS).
    Sends { port: u32, out: u32 },
    /// Memory ran out.
    Memory,
}

impl From<AllocError> for CostFault {
    ghost from_gives = { λ _ e. e ≡ Memory };

    fn from(_: AllocError) -> Self {
        CostFault::Memory
    }
}
