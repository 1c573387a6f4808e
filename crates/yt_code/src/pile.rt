//! A stack of fixed capacity.

ghost use Rattle.std.specs.Prelude.{◌≡◌, ◌+◌, ◌<◌, ◌≤◌, [], ◌∷◌, length, take, drop, reverse};

use arrayvec::ArrayVec;
use std::marker::Model;

/// Numbers, of which the newest is taken first. A contract sees the list of them, the newest first; the array has it last.
#[derive(Drop)]
pub struct Pile<const CAP: usize> {
    items: ArrayVec<i64, CAP>,
}

impl<const CAP: usize> Model for Pile<CAP> {
    ghost use Rattle.std.specs.Prelude.{List, ℤ, reverse};

    ghost Value = { List ℤ };

    ghost view = { λ p. reverse p.items.items };
}

impl<const CAP: usize> Pile<CAP> {
    /// The pile with no number.
    pub fn new() -> Self
        ensures { result ≡ [] }
    {
        Pile {
            items: ArrayVec::new(),
        }
    }

    /// Puts a number on top.
    pub fn push(&mut self, x: i64)
        requires { length self.old < CAP }
        ensures { self.new ≡ x ∷ self.old }
    {
        self.items.push(x);
    }

    /// Takes the top.
    pub fn pop(&mut self) -> i64
        requires { 0 < length self.old }
        ensures value { self.old ≡ result ∷ self.new }
        ensures room { length self.new < CAP }
    {
        // A read of the length tells that it is within the capacity.
        let _within = self.items.len();
        self.items.pop().unwrap()
    }

    /// The topmost numbers, the newest last.
    pub fn top(&self, n: usize) -> &[i64]
        requires { n ≤ length self.now }
        ensures { result.now ≡ reverse (take n self.now) }
    {
        let all = self.items.as_slice();
        &all[all.len() - n..]
    }

    /// Takes the topmost numbers away.
    pub fn cut(&mut self, n: usize)
        requires { n ≤ length self.old }
        ensures { self.new ≡ drop n self.old }
    {
        let rest = self.items.len() - n;
        self.items.truncate(rest);
    }

    /// Takes all numbers away.
    pub fn clear(&mut self)
        ensures { self.new ≡ [] }
    {
        self.items.clear();
    }
}
