//! A place that holds files by name.
ghost use Rattle.std.specs.Prelude.{◌≡◌, ◌⊎◌, ◌<◌, ◌≤◌, List, Option, Some, None, ℕ, length, IfOk, IfSome, IsErrOf, IsSomeAnd};
ghost use Rattle.yt_io.specs.declared.shelf.ShelfFault.TheVariants.{Memory};
ghost use Rattle.yt_io.specs.Faults.{Rose, IsQuiet};
ghost use Rattle.yt_io.specs.Shelf.{IsMissing, HoldsOver};
ghost use Rattle.yt_io.specs.Answers.{IsLongOrMemory};

use std::alloc::{AllocError, Global};
use thiserror::Error;

/// Why a read gives no bytes.
#[derive(Clone, Copy, Debug, PartialEq, Eq, Error)]
pub enum ShelfFault {
    /// The file isn't held, or the shelf failed, which it counts.
    #[error("the file could not be read")]
    Failed,
    /// The file has more bytes than the limit.
    #[error("the file is too long")]
    Long,
    /// Memory for the bytes ran out.
    #[error("out of memory")]
    Memory,
}

impl From<AllocError> for ShelfFault {
    ghost from_gives = { λ _ e. e ≡ Memory };

    fn from(_: AllocError) -> Self {
        ShelfFault::Memory
    }
}

/// A place that holds files by name. It counts its faults, and may tell which names hold which bytes.
pub trait Shelf {
    /// How often a read has failed by a fault of the shelf itself. It never falls, and may stand still at 2^64 - 1.
    ghost faults: { Self → ℕ };

    /// Which names hold which bytes, where the shelf tells it.
    ghost held: { Self → Option (List ℕ → Option (List ℕ)) };

    /// The bytes of a file, at most `limit`.
    ///
    /// `Failed` comes only where the count of faults rose in this call, or where the shelf tells and the name isn't held.
    /// Where it tells, a name that isn't held is always `Failed` and never counts, and `Long` comes only where the name
    /// holds more than `limit` bytes. `Memory` may come wherever memory ran out. No read changes what is told.
    fn read(&mut self, alloc: Global, name: &str, limit: usize) -> Result<Vec<u8>, ShelfFault>
        ensures count { faults self.old ≤ faults self.new }
        ensures same { held self.new ≡ held self.old }
        ensures short { IfOk result (λ v. length v.items ≤ limit) }
        ensures bytes { IfOk result (λ v. IfSome (held self.old) (λ files. files name.now ≡ Some v.items)) }
        ensures failed { IsErrOf result ShelfFault.Failed → IsMissing (held self.old) name.now ⊎ Rose (faults self.old) (faults self.new) }
        ensures missing { IsMissing (held self.old) name.now → IsErrOf result ShelfFault.Failed }
        ensures missing_counts { IsMissing (held self.old) name.now → faults self.new ≡ faults self.old }
        ensures long { IsErrOf result ShelfFault.Long → IfSome (held self.old) (λ _. HoldsOver (held self.old) name.now limit) }
        ensures over { HoldsOver (held self.old) name.now limit → IsQuiet (faults self.old) (faults self.new) → IsLongOrMemory result };
}
