//! What a handler sees.
ghost use Rattle.std.specs.Prelude.{◌≡◌};
ghost use Rattle.std.specs.Option.{option_copied};
ghost use Rattle.yt_table.specs.Tables.{first_of};
ghost use Rattle.yt_name_faults.specs.Names.{op_names};
ghost use Rattle.yt_name_faults.specs.Handlers.{is_known, op_named, out_named};

use std::marker::Model;
use yt_graph::{OpHead, OutDecl, VarDecl};
use yt_table::{NameSet, NameTable, first_named};

/// The variables of a handler's process, the outs of its port, and the operators.
#[derive(Drop)]
pub(crate) struct Env<'e, 'a> {
    vars: &'e NameTable<'a, VarDecl>,
    outs: &'e NameTable<'a, OutDecl>,
    ops: &'a [OpHead],
}

impl<'e, 'a> Model for Env<'e, 'a> {
    ghost use Rattle.yt_name_faults.specs.Handlers as handlers;

    ghost Value = { handlers.Env };

    ghost view = { λ e. record {
      vars = e.vars.now;
      outs = e.outs.now;
      ops = e.ops.now;
    } };
}

impl<'e, 'a> Env<'e, 'a> {
    /// What these are.
    pub(crate) fn new(
        vars: &'e NameTable<'a, VarDecl>,
        outs: &'e NameTable<'a, OutDecl>,
        ops: &'a [OpHead],
    ) -> Self
        ensures vars { result.vars ≡ vars.now }
        ensures outs { result.outs ≡ outs.now }
        ensures ops { result.ops ≡ ops.now }
    {
        Env { vars, outs, ops }
    }

    /// Whether a name is a visible local or a variable.
    pub(crate) fn knows(&self, visible: &NameSet, name: &[u8]) -> bool
        ensures { result ≡ is_known self.now visible.now name.now }
    {
        visible.contains(name) || self.vars.find(name).is_some()
    }

    /// The out that a name stands for.
    pub(crate) fn out(&self, name: &[u8]) -> Option<&'a OutDecl>
        ensures { option_copied result ≡ out_named self.now.outs name.now }
    {
        let place = self.outs.find(name)?;
        self.outs.all().get(place)
    }

    /// The operator that a name stands for.
    pub(crate) fn op(&self, name: &[u8]) -> Option<&'a OpHead>
        ensures { option_copied result ≡ op_named self.now.ops name.now }
    {
        let place = place_of_op(self.ops, name)?;
        self.ops.get(place)
    }
}

/// The place from 0 of the first operator of a name.
pub fn place_of_op(ops: &[OpHead], name: &[u8]) -> Option<usize>
    ensures { result ≡ first_of name.now 0 (op_names ops.now) }
{
    first_named(ops, name)
}
