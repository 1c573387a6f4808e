//! The files that the words name, read in order.
ghost use Rattle.std.specs.Prelude.{◌≡◌, ◌⊎◌, ◌≤◌, [], ◌∷◌, IfErr, IfOk, IsErrOf};
ghost use Rattle.yt_io.specs.Faults.{Rose};
ghost use Rattle.yt_io.specs.Shelf.{IsMissing};
ghost use Rattle.yartos.specs.declared.files.Unanswered.TheVariants.{NoMemory};
ghost use Rattle.yartos.specs.Reads.{CannotRead, IsRead, IsTooLong};
ghost use Rattle.yartos.specs.Inside.LongFiles.{IfLong, IsFirstLong};

use std::alloc::{AllocError, Global};
use yt_base::MOST_TEXT_BYTES;
use yt_io::{Shelf, ShelfFault};

/// Why there is no answer but that of a file that is too long.
#[derive(Clone, Copy, Debug, PartialEq, Eq)]
pub(crate) enum Unanswered {
    /// A file could not be read.
    NotRead,
    /// The file of this number, from 1, is too long, and each before it was read.
    TooLong(u64),
    /// Memory ran out.
    NoMemory,
}

impl From<AllocError> for Unanswered {
    ghost from_gives = { λ _ e. e ≡ NoMemory };

    fn from(_: AllocError) -> Self {
        Unanswered::NoMemory
    }
}

/// The bytes of a file, by its name and its number.
pub(crate) fn read_file<S: Shelf>(
    alloc: Global,
    name: &str,
    number: u64,
    shelf: &mut S,
) -> Result<Vec<u8>, Unanswered>
    ensures count { S.faults shelf.old ≤ S.faults shelf.new }
    ensures same { S.held shelf.new ≡ S.held shelf.old }
    ensures read { IfOk result (λ v. IsRead (S.held shelf.old) name.now v.items) }
    ensures not_read { IsErrOf result Unanswered.NotRead → IsMissing (S.held shelf.old) name.now ⊎ Rose (S.faults shelf.old) (S.faults shelf.new) }
    ensures long { IfErr result (λ e. IfLong e (λ n. (n ≡ number) × IsTooLong (S.held shelf.old) name.now)) }
{
    match shelf.read(alloc, name, MOST_TEXT_BYTES) {
        Ok(bytes) => Ok(bytes),
        Err(ShelfFault::Failed) => Err(Unanswered::NotRead),
        Err(ShelfFault::Long) => Err(Unanswered::TooLong(number)),
        Err(ShelfFault::Memory) => Err(Unanswered::NoMemory),
    }
}

/// The bytes of the only file that a command names.
pub(crate) fn read_one<S: Shelf>(
    alloc: Global,
    name: &str,
    shelf: &mut S,
) -> Result<Vec<u8>, Unanswered>
    ensures count { S.faults shelf.old ≤ S.faults shelf.new }
    ensures same { S.held shelf.new ≡ S.held shelf.old }
    ensures read { IfOk result (λ v. IsRead (S.held shelf.old) name.now v.items) }
    ensures not_read { IsErrOf result Unanswered.NotRead → CannotRead (S.held shelf.old) (name.now ∷ []) ⊎ Rose (S.faults shelf.old) (S.faults shelf.new) }
    ensures long { IfErr result (λ e. IfLong e (IsFirstLong (S.held shelf.old) (name.now ∷ []))) }
{
    read_file(alloc, name, 1, shelf)
}

/// The bytes of two files, the first of which is read whole before the second.
pub(crate) fn read_two<S: Shelf>(
    alloc: Global,
    first: &str,
    second: &str,
    shelf: &mut S,
) -> Result<(Vec<u8>, Vec<u8>), Unanswered>
    ensures count { S.faults shelf.old ≤ S.faults shelf.new }
    ensures same { S.held shelf.new ≡ S.held shelf.old }
    ensures first { IfOk result (λ v. IsRead (S.held shelf.old) first.now v.0.items) }
    ensures second { IfOk result (λ v. IsRead (S.held shelf.old) second.now v.1.items) }
    ensures not_read { IsErrOf result Unanswered.NotRead → CannotRead (S.held shelf.old) (first.now ∷ second.now ∷ []) ⊎ Rose (S.faults shelf.old) (S.faults shelf.new) }
    ensures long { IfErr result (λ e. IfLong e (IsFirstLong (S.held shelf.old) (first.now ∷ second.now ∷ []))) }
{
    let first = read_file(alloc, first, 1, shelf)?;
    let second = read_file(alloc, second, 2, shelf)?;
    Ok((first, second))
}
