//! The files of the system as a shelf. What a file holds is not known.
ghost use Rattle.std.specs.Prelude.{◌≡◌, ◌⊎◌, ◌<◌, ◌≤◌, List, Option, Some, None, ℕ, length, IfOk, IfSome, IsErrOf, OnErr, is_ok, if◌then◌else◌};
ghost use Rattle.yt_io.specs.Faults.{Rose, IsQuiet, next};
ghost use Rattle.yt_io.specs.Shelf.{IsMissing, HoldsOver, untold};
ghost use Rattle.yt_io.specs.Answers.{IsLongOrMemory};

use crate::{Shelf, ShelfFault};
use std::alloc::Global;
use std::fs;
use std::io::Read;
use std::marker::Model;
use std::rt::Files;

/// How many bytes are asked for at a time.
const BLOCK: usize = 4096;

/// The files of the system, by their paths. It tells nothing of bytes, and a contract sees its count of faults.
#[derive(Drop)]
pub struct HostShelf<'a, R: Files> {
    rt: &'a R,
    faults: u64,
}

impl<'a, R: Files> Model for HostShelf<'a, R> {
    ghost Value = { ℕ };

    ghost view = { λ s. s.faults };
}

impl<'a, R: Files> HostShelf<'a, R> {
    /// The shelf with a count of 0. Takes no memory.
    pub fn new(rt: &'a R) -> Self
        ensures { result ≡ 0 }
    {
        HostShelf { rt, faults: 0 }
    }
}

impl<R: Files> Shelf for HostShelf<'_, R> {
    ghost faults = { λ count. count };

    ghost held = { λ _. untold };

    fn read(&mut self, alloc: Global, name: &str, limit: usize) -> Result<Vec<u8>, ShelfFault>
        ensures count { self.old ≤ self.new }
        ensures short { IfOk result (λ v. length v.items ≤ limit) }
        ensures bytes { IfOk result (λ v. IfSome untold (λ files. files name.now ≡ Some v.items)) }
        ensures failed { IsErrOf result ShelfFault.Failed → IsMissing untold name.now ⊎ Rose self.old self.new }
        ensures missing { IsMissing untold name.now → IsErrOf result ShelfFault.Failed }
        ensures missing_counts { IsMissing untold name.now → self.new ≡ self.old }
        ensures over { HoldsOver untold name.now limit → IsQuiet self.old self.new → IsLongOrMemory result }

        // Each `Err` counts, and nothing else.
        ensures counted { self.new ≡ (if is_ok result then self.old else next self.old) }
    {
        let result = read_file(alloc, self.rt, name, limit);
        if result.is_err() {
            self.faults = self.faults.saturating_add(1);
        }
        result
    }
}

/// The bytes of the file at this path, at most `limit`.
fn read_file<R: Files>(
    alloc: Global,
    rt: &R,
    name: &str,
    limit: usize,
) -> Result<Vec<u8>, ShelfFault>
    ensures { IfOk result (λ v. length v.items ≤ limit) }
{
    let Ok(mut file) = fs::open(rt, name) else {
        return Err(ShelfFault::Failed);
    };
    read_to_end(alloc, &mut file, limit)
}

/// All that is left to read, at most `limit` bytes. Each turn but the last adds a byte, so there are at most `limit + 1`.
fn read_to_end<F: Read>(alloc: Global, file: &mut F, limit: usize) -> Result<Vec<u8>, ShelfFault>
    ensures short { IfOk result (λ v. length v.items ≤ limit) }
    ensures bytes { IfOk result (λ v. IfSome (F.remaining file.old) (λ left. v.items ≡ left)) }
    ensures long { IsErrOf result ShelfFault.Long → IfSome (F.remaining file.old) (λ left. limit < length left) }
{
    let mut bytes = Vec::new(alloc);
    let mut block = [0u8; BLOCK];
    'turns: loop {
        match file.read(&mut block) {
            Ok(0) => return Ok(bytes),
            Ok(n) if n <= limit - bytes.len() => bytes.extend_from_slice(&block[..n])?,
            Ok(_) => return Err(ShelfFault::Long),
            Err(_) => return Err(ShelfFault::Failed),
        }
    }
}
