//! What can be wrong with names, and which fault decides.

ghost use Rattle.std.specs.Prelude.{◌≡◌};
ghost use Rattle.yt_name_faults.specs.declared.fault.NameFault.TheVariants.{Memory};

use std::alloc::AllocError;
use yt_graph::Place;

/// What there is too much of.
#[derive(Clone, Copy, Debug, PartialEq, Eq)]
pub enum LimitKind {
    /// More than 16 inputs.
    Inputs,
    /// More than 16 outputs.
    Outputs,
    /// More than 32 declared resources.
    Resources,
    /// More than 64 processes.
    Processes,
    /// More than 64 ports.
    Ports,
    /// More than 256 variables.
    Variables,
    /// More than 8 outs of a port.
    Outs,
    /// More than 16 locals of a handler, parameters among them.
    Locals,
    /// A width over 8.
    Width,
    /// A period that is not from 1 to 1,000,000.
    Period,
    /// An `every` that is not from 1 to 1,000.
    Every,
    /// A greatest count of turns that is not from 1 to 10,000.
    Turns,
}

/// What is wrong with a name or a number, and where.
#[derive(Clone, Copy, Debug, PartialEq, Eq)]
pub enum NameFault {
    /// The name has no declaration of the kind that is looked for.
    Unknown(Place),
    /// The name is declared as something else.
    Kind(Place),
    /// The name is declared before.
    Twice(Place),
    /// The count of parameters, values or arguments is another than the one that is declared.
    Width(Place),
    /// A number is out of its range, or a declaration is one too many.
    Limit(Place, LimitKind),
    /// The port's chain of sources never ends at an input.
    Cycle(Place),
    /// Memory ran out.
    Memory,
}

impl From<AllocError> for NameFault {
    ghost from_gives = { λ _ e. e ≡ Memory };

    fn from(_: AllocError) -> Self {
        NameFault::Memory
    }
}
