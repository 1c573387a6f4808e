//! What a handler's words stand for.
ghost use Rattle.std.specs.Prelude.{◌≡◌, ◌++◌, [], ◌∷◌, length, take, OnOk};
ghost use Rattle.yt_names.specs.Resolved.{local_at, meant, out_number};
ghost use Rattle.yt_table.specs.Tables.{first_of};
ghost use Rattle.yt_name_faults.specs.Names.{out_names, op_names};

use crate::meant::Meant;
use crate::numbers::{number_of, place_behind};
use std::alloc::{AllocError, Global};
use std::marker::Model;
use yt_graph::{OpHead, OutDecl, VarDecl};
use yt_name_faults::place_of_op;
use yt_table::NameTable;

/// A local: its name, and its place in the handler.
#[derive(Clone, Copy)]
struct Local<'a> {
    text: &'a [u8],
    place: u32,
}

/// The locals that are visible, in the order of their declarations.
#[derive(Drop)]
pub(crate) struct Visible<'a> {
    locals: Vec<Local<'a>>,
}

impl<'a> Model for Visible<'a> {
    ghost use Rattle.std.specs.Prelude.{List, map};
    ghost use Rattle.yt_names.specs.Resolved as resolved;

    ghost Value = { List resolved.NamedPlace };

    ghost view = { λ v. map (λ l. record { text = l.text.now; place = l.place }) v.locals.items };
}

impl<'a> Visible<'a> {
    /// No local.
    pub(crate) fn new(alloc: Global) -> Self
        ensures { result ≡ [] }
    {
        Visible {
            locals: Vec::new(alloc),
        }
    }

    /// How many are visible.
    pub(crate) fn len(&self) -> usize
        ensures { result ≡ length self.now }
    {
        self.locals.len()
    }

    /// The place of the first local of a name.
    pub(crate) fn place(&self, word: &[u8]) -> Option<u32>
        ensures { result ≡ local_at word.now self.now }
    {
        for local in &self.locals {
            if word == local.text {
                return Some(local.place);
            }
        }
        None
    }

    /// One more local.
    pub(crate) fn add(&mut self, text: &'a [u8], place: u32) -> Result<(), AllocError>
        ensures { OnOk result (self.new ≡ self.old ++ record { text = text.now; place = place } ∷ []) }
    {
        Ok(self.locals.push(Local { text, place })?)
    }

    /// The first so many alone.
    pub(crate) fn cut(&mut self, len: usize)
        ensures { self.new ≡ take len self.old }
    {
        self.locals.truncate(len);
    }
}

/// The variables of a handler's process with the place of the first, the outs of its port, and the operators.
#[derive(Drop)]
pub(crate) struct Scope<'e, 'a> {
    first: usize,
    vars: &'e NameTable<'a, VarDecl>,
    outs: &'e NameTable<'a, OutDecl>,
    ops: &'a [OpHead],
}

impl<'e, 'a> Model for Scope<'e, 'a> {
    ghost use Rattle.yt_names.specs.Resolved as resolved;

    ghost Value = { resolved.Scope };

    ghost view = { λ s. record {
      first = s.first;
      vars = s.vars.now;
      outs = s.outs.now;
      ops = s.ops.now;
    } };
}

impl<'e, 'a> Scope<'e, 'a> {
    /// What these are.
    pub(crate) fn new(
        first: usize,
        vars: &'e NameTable<'a, VarDecl>,
        outs: &'e NameTable<'a, OutDecl>,
        ops: &'a [OpHead],
    ) -> Self
        ensures first { result.first ≡ first }
        ensures vars { result.vars ≡ vars.now }
        ensures outs { result.outs ≡ outs.now }
        ensures ops { result.ops ≡ ops.now }
    {
        Scope {
            first,
            vars,
            outs,
            ops,
        }
    }

    /// What a name stands for.
    pub(crate) fn meant(&self, visible: &Visible, word: &[u8]) -> Meant
        ensures { result ≡ meant self.now visible.now word.now }
    {
        match visible.place(word) {
            Some(place) => Meant::Local(place),
            None => match self.vars.find(word) {
                Some(k) => Meant::Var(place_behind(self.first, k)),
                None => Meant::Nothing,
            },
        }
    }

    /// The number of an out; 0 where no out has the name.
    pub(crate) fn out_number(&self, word: &[u8]) -> u32
        ensures { result ≡ out_number (first_of word.now 0 (out_names self.now.outs)) }
    {
        match self.outs.find(word) {
            Some(place) => number_of(place),
            None => 0,
        }
    }

    /// The place of an operator.
    pub(crate) fn op_place(&self, word: &[u8]) -> Option<usize>
        ensures { result ≡ first_of word.now 0 (op_names self.now.ops) }
    {
        place_of_op(self.ops, word)
    }

    /// The operators.
    pub(crate) fn ops(&self) -> &'a [OpHead]
        ensures { result.now ≡ self.now.ops }
    {
        self.ops
    }
}
