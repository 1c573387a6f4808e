//! A shelf in memory, for tests.
ghost use Rattle.std.specs.Prelude.{◌≡◌, ◌⊎◌, ◌<◌, ◌≤◌, List, Option, Some, None, ℕ, map, length, string_bytes, option_map, IfOk, IfSome, IsErrOf};
ghost use Rattle.yt_io.specs.Faults.{Rose, IsQuiet};
ghost use Rattle.yt_io.specs.Shelf.{IsMissing, HoldsOver, lookup};
ghost use Rattle.yt_io.specs.Answers.{IsLongOrMemory};
ghost use Rattle.yt_io.specs.MemShelf.{pairs, after_read, read_gives, Gives};

use crate::{Shelf, ShelfFault};
use std::alloc::Global;
use std::marker::Model;

/// Files in memory, of which certain reads fail. It tells its files; where a name stands twice, its first entry is the file. Its
/// number of reads and its count of faults stay at 2^64 - 1 once they are there.
#[derive(Drop)]
pub struct MemShelf {
    files: Vec<(String, Vec<u8>)>,
    fails: Vec<u64>,
    reads: u64,
    faults: u64,
}

impl Model for MemShelf {
    ghost use Rattle.yt_io.specs.MemShelf.{Shelved, pairs};

    ghost Value = { Shelved };

    ghost view = { λ s. record { files = pairs s.files.items; fails = s.fails.items; reads = s.reads; faults = s.faults } };
}

impl MemShelf {
    /// A shelf with these files. Its n-th read, from 1, fails and counts where n is among `fails` and the name is held.
    /// Takes no memory.
    pub fn with(files: Vec<(String, Vec<u8>)>, fails: Vec<u64>) -> Self
        ensures { result ≡ record { files = pairs files.items; fails = fails.items; reads = 0; faults = 0 } }
    {
        MemShelf {
            files,
            fails,
            reads: 0,
            faults: 0,
        }
    }
}

/// The bytes of the first file of this name.
fn find<'a>(files: &'a [(String, Vec<u8>)], name: &str) -> Option<&'a [u8]>
    ensures { option_map (λ bytes. bytes.now) result ≡ lookup (pairs files.now) name.now }
{
    for file in files {
        if file.0.as_str() == name {
            return Some(file.1.as_slice());
        }
    }
    None
}

impl Shelf for MemShelf {
    ghost faults = { λ s. s.faults };

    ghost held = { λ s. Some (lookup s.files) };

    fn read(&mut self, alloc: Global, name: &str, limit: usize) -> Result<Vec<u8>, ShelfFault>
        ensures count { self.old.faults ≤ self.new.faults }
        ensures same { Some (lookup self.new.files) ≡ Some (lookup self.old.files) }
        ensures short { IfOk result (λ v. length v.items ≤ limit) }
        ensures bytes { IfOk result (λ v. lookup self.old.files name.now ≡ Some v.items) }
        ensures failed { IsErrOf result ShelfFault.Failed → IsMissing (Some (lookup self.old.files)) name.now ⊎ Rose self.old.faults self.new.faults }
        ensures missing { IsMissing (Some (lookup self.old.files)) name.now → IsErrOf result ShelfFault.Failed }
        ensures missing_counts { IsMissing (Some (lookup self.old.files)) name.now → self.new.faults ≡ self.old.faults }
        ensures long { IsErrOf result ShelfFault.Long → HoldsOver (Some (lookup self.old.files)) name.now limit }
        ensures over { HoldsOver (Some (lookup self.old.files)) name.now limit → IsQuiet self.old.faults self.new.faults → IsLongOrMemory result }

        // What it answers, unless memory runs out, and what it leaves.
        ensures answer { Gives result (read_gives self.old name.now limit) }
        ensures state { self.new ≡ after_read self.old name.now }
    {
        self.reads = self.reads.saturating_add(1);
        let Some(bytes) = find(&self.files, name) else {
            return Err(ShelfFault::Failed);
        };
        if self.fails.contains(&self.reads) {
            self.faults = self.faults.saturating_add(1);
            return Err(ShelfFault::Failed);
        }
        if bytes.len() > limit {
            return Err(ShelfFault::Long);
        }
        Ok(bytes.to_vec(alloc)?)
    }
}
