//! One list type for every item.
ghost use Rattle.std.specs.Prelude.{◌≡◌, ◌<◌, ◌==◌, [], ◌∷◌, ◌++◌, List, length, slice_get, slice_index_or, Some, OnOk, OnErr};

use std::alloc::{AllocError, Global};
use std::marker::Model;

/// Items in order. A contract sees the list of them.
#[derive(Debug, Drop)]
pub struct Items<T> {
    items: Vec<T>,
}

impl<T> Model for Items<T> {
    ghost Value = { List T };

    ghost view = { λ l. l.items.items };
}

impl<T> Items<T> {
    /// The list with no item. Takes no memory until the first `push`.
    pub fn new(alloc: Global) -> Self
        ensures { result ≡ [] }
    {
        Items {
            items: Vec::new(alloc),
        }
    }

    /// Takes over the items of a `Vec`, with no memory.
    pub fn from_vec(items: Vec<T>) -> Self
        ensures { result ≡ items.items }
    {
        Items { items }
    }

    /// Gives the items as a `Vec`, with no memory.
    pub fn into_vec(self) -> Vec<T>
        ensures { result.items ≡ self }
    {
        let Items { items } = self;
        items
    }

    /// Adds an item at the end. `Err` comes where memory ran out; the list is then as before.
    pub fn push(&mut self, item: T) -> Result<(), AllocError>
    where
        T: Drop,
        ensures ok { OnOk result (self.new ≡ self.old ++ item ∷ []) }
        ensures err { OnErr result (self.new ≡ self.old) }
    {
        Ok(self.items.push(item)?)
    }

    /// How many items there are.
    pub fn len(&self) -> usize
        ensures { result ≡ length self.now }
    {
        self.items.len()
    }

    /// Whether there is no item.
    pub fn is_empty(&self) -> bool
        ensures { result ≡ length self.now == 0 }
    {
        self.items.is_empty()
    }

    /// The item at place `n`, counted from 0. The caller shows that there is one.
    pub fn at(&self, n: usize) -> &T
        requires { n < length self.now }
        ensures get { slice_get self.now n ≡ Some result.now }
        ensures item { result.now ≡ slice_index_or self.now n result.now }
    {
        &self.items[n]
    }

    /// All items, as a slice to go over.
    pub fn as_slice(&self) -> &[T]
        ensures { result.now ≡ self.now }
    {
        &self.items
    }
}
