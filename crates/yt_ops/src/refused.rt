//! Refusals of operators.
ghost use Rattle.yt_ops.specs.Values.{GivesValuesOf};

use crate::stored::OpBody;
use crate::table::OpTable;
use yt_graph::OpHead;

/// Why an operator is not taken. Of several causes the first in this order counts.
#[derive(Clone, Copy, Debug, PartialEq, Eq, Drop)]
pub enum OpCause {
    /// An operator of that name is there.
    Twice,
    /// As many operators are there as a table has at most.
    Full,
    /// Memory ran out.
    Memory,
}

/// An operator that is not taken, with the table, all as they were handed over.
#[derive(Drop)]
pub struct OpRefused {
    /// The table.
    pub table: OpTable,
    /// The operator's head.
    pub head: OpHead,
    /// Its closure.
    pub body: OpBody,
    /// Why it is not taken.
    pub cause: OpCause,
    // The closure is still one that may be added with this head.
    pub ghost callable: { OpBody.IsAlwaysCallable body },
    pub ghost gives: { GivesValuesOf head.code (OpBody.post body) },
}
