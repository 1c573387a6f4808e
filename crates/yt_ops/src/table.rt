//! Tables of operators.
ghost use Rattle.std.specs.Prelude.{◌≡◌, ◌<◌, [], ◌∷◌, ◌++◌, map, vec_len, vec_capacity, IfOk, IfErr, IfSome, IfNone};
ghost use Rattle.yt_graph.specs.Operators.{IsNamedHead, AreFineHeads};
ghost use Rattle.yt_ops.specs.Values.{GivesValuesOf};
ghost use Rattle.yt_ops.specs.Heads.{AreTableHeads, HasPlaceFor, IsCauseOf};

use crate::heads::Heads;
use crate::limits::MOST_OPS;
use crate::refused::{OpCause, OpRefused};
use crate::stored::{OpBody, Stored};
use std::alloc::Global;
use yt_graph::{OpHead, Ops};

/// Operators that the host supplies: their heads, and a closure beside each. The heads are at most 32, within their ranges and
/// of different names.
#[derive(Drop)]
pub struct OpTable {
    heads: Heads,
    stored: Vec<Stored>,
    // Each closure gives the values of the code of the head at its place.
    ghost same: { map (λ s. s.code) stored.items ≡ map (λ h. h.code) heads },
}

impl OpTable {
    ghost use Rattle.yt_ops.specs.Tables.{heads_of, HoldsSame};

    /// No operator. The table keeps the allocator, and takes no memory yet.
    pub fn new(alloc: Global) -> Self
        ensures { heads_of result ≡ [] }
    {
        OpTable {
            heads: Heads::new(alloc),
            stored: Vec::new(alloc),
        }
    }

    /// Adds an operator last. The caller shows that its head is within its ranges, and that the closure may be called on all
    /// numbers and gives the values of the head's code.
    ///
    /// An operator whose name is there is refused with `Twice`, else with `Full` where 32 are there, and any where memory ran
    /// out. Table, head and closure are then handed back unchanged.
    pub fn add(self, head: OpHead, body: OpBody) -> Result<OpTable, OpRefused>
        requires named { IsNamedHead head }
        requires callable { OpBody.IsAlwaysCallable body }
        requires gives { GivesValuesOf head.code (OpBody.post body) }

        // The new table has this operator last, and there was a place for it.
        ensures ok { IfOk result (λ table. heads_of table ≡ heads_of self ++ head ∷ []) }
        ensures place { IfOk result (λ _. HasPlaceFor (heads_of self) head) }

        // Otherwise all three come back, with the cause.
        ensures same_table { IfErr result (λ refused. HoldsSame self refused.table) }
        ensures same_head { IfErr result (λ refused. refused.head ≡ head) }
        ensures same_body { IfErr result (λ refused. refused.body ≡ body) }
        ensures cause { IfErr result (λ refused. IsCauseOf (heads_of self) head refused.cause) }
    {
        let mut table = self;
        if let Some(cause) = table.refusal(&head) {
            return Err(OpRefused {
                table,
                head,
                body,
                cause,
            });
        }
        let code = head.code;
        match table.heads.push(head) {
            Ok(()) => {
                // There is room, so this takes no memory and does not fail.
                let _ = table.stored.push(Stored { code, body });
                Ok(table)
            }
            Err(head) => Err(OpRefused {
                table,
                head,
                body,
                cause: OpCause::Memory,
            }),
        }
    }

    /// Why an operator of this head is not taken. Where it may be, there is room for one more closure.
    fn refusal(&mut self, head: &OpHead) -> Option<OpCause>
        ensures same { HoldsSame self.old self.new }
        ensures cause { IfSome result (λ cause. IsCauseOf (heads_of self.old) head.now cause) }
        ensures place { IfNone result (HasPlaceFor (heads_of self.old) head.now) }
        ensures room { IfNone result (vec_len self.new.stored < vec_capacity self.new.stored) }
    {
        if self.heads.has(head.name.as_slice()) {
            Some(OpCause::Twice)
        } else if self.heads.len() >= MOST_OPS {
            Some(OpCause::Full)
        } else if self.stored.reserve(1).is_err() {
            Some(OpCause::Memory)
        } else {
            None
        }
    }
}

impl Ops for OpTable {
    ghost use Rattle.yt_ops.specs.Tables.{heads_of};

    ghost known = { λ t. heads_of t };

    fn heads(&self) -> &[OpHead]
        ensures known { result.now ≡ heads_of self.now }
        ensures kept { AreTableHeads result.now }
        ensures fine { AreFineHeads result.now }
    {
        self.heads.as_slice()
    }

    fn call(&self, op: u32, x: i64, y: i64) -> i64 {
        self.stored[op as usize - 1].call(x, y)
    }
}
