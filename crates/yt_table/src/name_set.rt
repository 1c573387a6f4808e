//! Names in the order in which they are first seen.
ghost use Rattle.std.specs.Prelude.{◌≡◌, [], length, take, not, bytes_eq, IfOk, OnOk, OnErr};
ghost use Rattle.std.specs.List.{position_or_len};
ghost use Rattle.yt_table.specs.Tables.{is_among, with_name};

use indexmap::IndexSet;
use std::alloc::{AllocError, Global};
use std::marker::Model;
use yt_list::{Name, Names};

/// Names in the order in which they were first seen. A contract sees the list of them.
#[derive(Drop)]
pub struct NameSet<'a> {
    names: IndexSet<&'a [u8]>,
}

impl<'a> Model for NameSet<'a> {
    ghost use Rattle.std.specs.Prelude.{List, ℕ, map};

    ghost Value = { List (List ℕ) };

    ghost view = { λ s. map (λ k. k.now) s.names.keys };
}

impl<'a> NameSet<'a> {
    /// No name. Takes no memory until the first name comes.
    pub fn new(alloc: Global) -> Self
        ensures { result ≡ [] }
    {
        NameSet {
            names: IndexSet::new(alloc),
        }
    }

    /// Whether the name was seen.
    pub fn contains(&self, name: &[u8]) -> bool
        ensures { result ≡ is_among name.now self.now }
    {
        self.names.contains(name)
    }

    /// How many names there are.
    pub fn len(&self) -> usize
        ensures { result ≡ length self.now }
    {
        self.names.len()
    }

    /// Sees a name, and tells whether it is new. One that was seen keeps its index.
    pub fn insert(&mut self, name: &'a [u8]) -> Result<bool, AllocError>
        ensures names { OnOk result (self.new ≡ with_name name.now self.old) }
        ensures added { IfOk result (λ added. added ≡ not (is_among name.now self.old)) }
        ensures err { OnErr result (self.new ≡ self.old) }
    {
        let (_, added) = self.insert_full(name)?;
        Ok(added)
    }

    /// Sees a name, and gives its index from 0 and whether it is new. One that was seen keeps its index.
    pub fn insert_full(&mut self, name: &'a [u8]) -> Result<(usize, bool), AllocError>
        ensures names { OnOk result (self.new ≡ with_name name.now self.old) }
        ensures index { IfOk result (λ seen. seen.0 ≡ position_or_len (bytes_eq name.now) self.old) }
        ensures added { IfOk result (λ seen. seen.1 ≡ not (is_among name.now self.old)) }
        ensures err { OnErr result (self.new ≡ self.old) }
    {
        Ok(self.names.insert_full(name)?)
    }

    /// Keeps the first so many names alone.
    pub fn truncate(&mut self, len: usize)
        ensures { self.new ≡ take len self.old }
    {
        self.names.truncate(len);
    }

    /// The names as a list of their own.
    pub fn to_names(&self, alloc: Global) -> Result<Names, AllocError>
        ensures { IfOk result (λ names. names ≡ self.now) }
    {
        let mut names = Names::new(alloc);
        for name in self.names.as_slice() {
            names.push(Name::from_vec(Vec::from_slice(alloc, name)?))?;
        }
        Ok(names)
    }
}
