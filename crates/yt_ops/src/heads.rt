//! The heads of a table.
ghost use Rattle.std.specs.Prelude.{◌≡◌, [], ◌∷◌, ◌++◌, length, OnOk, OnErr, IfErr};
ghost use Rattle.yt_graph.specs.Operators.{IsNamedHead};
ghost use Rattle.yt_ops.specs.Heads.{AreTableHeads, HasPlaceFor, has_name};

use std::alloc::Global;
use std::marker::Model;
use yt_graph::OpHead;
use yt_table::first_named;

/// At most 32 heads within their ranges, of different names. A contract sees the list of them.
#[derive(Debug, Drop)]
pub(crate) struct Heads {
    heads: Vec<OpHead>,
}

impl Model for Heads {
    ghost use Rattle.std.specs.Prelude.{List};
    ghost use Rattle.yt_graph.specs.declared.operator.OpHead.{OpHead};
    ghost use Rattle.yt_ops.specs.Heads.{AreTableHeads};

    ghost Value = { List OpHead };

    ghost view = { λ h. h.heads.items };

    ghost invariant = { λ h. AreTableHeads h.heads.items };
}

impl Heads {
    /// No head. It takes no memory.
    pub(crate) fn new(alloc: Global) -> Self
        ensures { result ≡ [] }
    {
        Heads {
            heads: Vec::new(alloc),
        }
    }

    /// All heads, in order.
    pub(crate) fn as_slice(&self) -> &[OpHead]
        ensures all { result.now ≡ self.now }
        ensures kept { AreTableHeads self.now }
    {
        &self.heads
    }

    /// How many heads there are.
    pub(crate) fn len(&self) -> usize
        ensures len { result ≡ length self.now }
        ensures kept { AreTableHeads self.now }
    {
        self.heads.len()
    }

    /// Whether a head has this name.
    pub(crate) fn has(&self, name: &[u8]) -> bool
        ensures { result ≡ has_name self.now name.now }
    {
        first_named(&self.heads, name).is_some()
    }

    /// Adds a head last. `Err` comes where memory ran out: the head is handed back, and the list is as before.
    pub(crate) fn push(&mut self, head: OpHead) -> Result<(), OpHead>
        requires place { HasPlaceFor self.old head }
        requires named { IsNamedHead head }
        ensures ok { OnOk result (self.new ≡ self.old ++ head ∷ []) }
        ensures err { OnErr result (self.new ≡ self.old) }
        ensures back { IfErr result (λ back. back ≡ head) }
    {
        self.heads.push(head).map_err(|failed| failed.value)
    }
}
