//! Why a graph is not accepted.
ghost use Rattle.std.specs.Prelude.{◌≡◌};
ghost use Rattle.yt_rates.specs.declared.refused.AcceptCause.TheVariants.{Memory};
ghost use Rattle.yt_rates.specs.Acceptance.{cause_of};

use crate::fault::RateFault;
use std::alloc::AllocError;
use yt_cost::Codes;
use yt_fits::Unfit;
use yt_graph::Graph;
use yt_set::TaskSet;

/// Why a graph is not accepted. Of several causes the first in this order counts.
#[derive(Debug, Drop)]
pub enum AcceptCause {
    /// This fault of its rates decides; it is never `Memory`.
    Rate(RateFault),
    /// Its tasks, which are these, don't fit.
    Unfit(Unfit, TaskSet),
    /// Memory ran out.
    Memory,
}

impl From<RateFault> for AcceptCause {
    ghost from_gives = { λ fault cause. cause ≡ cause_of fault };

    fn from(fault: RateFault) -> Self {
        match fault {
            RateFault::Memory => AcceptCause::Memory,
            fault => AcceptCause::Rate(fault),
        }
    }
}

impl From<AllocError> for AcceptCause {
    ghost from_gives = { λ _ cause. cause ≡ Memory };

    fn from(_: AllocError) -> Self {
        AcceptCause::Memory
    }
}

/// A graph that is not accepted, with its codes, both as they were handed over.
#[derive(Drop)]
pub struct NotAccepted {
    /// The graph.
    pub graph: Graph,
    /// Its codes.
    pub codes: Codes,
    /// Why it is not accepted.
    pub cause: AcceptCause,
}
