//! What can be out of range in a graph's rates.
ghost use Rattle.std.specs.Prelude.{◌≡◌};
ghost use Rattle.yt_rates.specs.declared.fault.RateFault.TheVariants.{Memory};

use std::alloc::AllocError;

/// Why a graph has no rates within the limits. Ports and outs are numbered from 1.
#[derive(Clone, Copy, Debug, PartialEq, Eq)]
pub enum RateFault {
    /// This port's period is `period` ticks, more than 1,000,000.
    Over { port: u32, period: u64 },
    /// No handling on this port sends on this out, or the gap between two messages of the out would be 0 ticks.
    Zero { port: u32, out: u32 },
    /// A message that this port sends may come more than 4,000,000 ticks of logical time after the input's message.
    Span { port: u32 },
    /// Memory ran out.
    Memory,
}

impl From<AllocError> for RateFault {
    ghost from_gives = { λ _ e. e ≡ Memory };

    fn from(_: AllocError) -> Self {
        RateFault::Memory
    }
}
