//! Items that are found by their names.
ghost use Rattle.std.specs.Prelude.{◌≡◌, ◌<◌, ℕ, List, length, map, unwrap_or, IfOk, IfSome, OnOk};
ghost use Rattle.yt_table.specs.Tables.{first_of};
ghost use Rattle.yt_table.specs.Inside.Numbers.{number_in, HasNumber};

use indexmap::IndexMap;
use std::alloc::{AllocError, Global};
use std::marker::Model;
use yt_list::Named;

/// Items in order, which are found by their names. A contract sees the list of them.
#[derive(Drop)]
pub struct NameTable<'a, T: Named> {
    all: &'a [T],
    firsts: IndexMap<&'a [u8], usize>,
}

impl<'a, T: Named> Model for NameTable<'a, T> {
    ghost Value = { List T };

    ghost view = { λ table. table.all.now };

    ghost invariant = { λ table. (name : List ℕ) → number_in table.firsts name ≡ first_of name 0 (map T.text table.all.now) };
}

impl<'a, T: Named> NameTable<'a, T> {
    /// These items. Each name is hashed once, and none is copied.
    pub fn new(alloc: Global, all: &'a [T]) -> Result<Self, AllocError>
        ensures { IfOk result (λ table. table ≡ all.now) }
    {
        let mut firsts = IndexMap::new(alloc);
        for (index, item) in all.iter().enumerate() {
            declare(&mut firsts, item.name(), index)?;
        }
        Ok(NameTable { all, firsts })
    }

    /// The index from 0 of the first item of a name.
    pub fn find(&self, name: &[u8]) -> Option<usize>
        ensures first { result ≡ first_of name.now 0 (map T.text self.now) }
        ensures within { IfSome result (λ index. index < length self.now) }
    {
        self.firsts.get(name).copied()
    }

    /// All items.
    pub fn all(&self) -> &'a [T]
        ensures { result.now ≡ self.now }
    {
        self.all
    }
}

/// Gives a name its number. A name that has one keeps it.
fn declare<'a>(
    firsts: &mut IndexMap<&'a [u8], usize>,
    name: &'a [u8],
    number: usize,
) -> Result<(), AllocError>
    ensures { OnOk result (HasNumber firsts.old firsts.new name.now (unwrap_or (number_in firsts.old name.now) number)) }
{
    firsts.entry(name)?.or_insert(number);
    Ok(())
}
