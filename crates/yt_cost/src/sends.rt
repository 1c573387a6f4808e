//! The most messages that a handling may send on an out, where 2^32 - 1 stands for any number that is greater.

ghost use Rattle.std.specs.Prelude.{◌≡◌, ◌-◌, ◌^◌, min};
ghost use Rattle.yt_graph.specs.Picture.{stmt_tree, block_tree};
ghost use Rattle.yt_graph.specs.Cost.{stmt_sends, block_sends};

use yt_graph::{Parts, Stmt, open};

// The most messages of a statement on the out of this number, from 1.
#[cycle(sends)]
fn sends_in(s: &Stmt, out: u32) -> u32
    ensures { result ≡ min (stmt_sends out (stmt_tree s.now)) (2 ^ 32 - 1) }
{
    match open(s) {
        Parts::SetLocal(_, _) => 0,
        Parts::SetVar(_, _) => 0,
        Parts::Send(o, _) => { if out == o { 1 } else { 0 } }
        Parts::Only(_, first) => sends_in_all(first, out),
        Parts::Else(_, first, second) => sends_in_all(first, out).max(sends_in_all(second, out)),
        Parts::Repeat(_, max, body) => max.saturating_mul(sends_in_all(body, out)),
    }
}

/// The most messages of a block on the out of this number, from 1.
#[cycle(sends)]
pub(crate) fn sends_in_all(b: &[Stmt], out: u32) -> u32
    ensures { result ≡ min (block_sends out (block_tree b.now)) (2 ^ 32 - 1) }
{
    let mut sum = 0u32;
    for s in b {
        sum = sum.saturating_add(sends_in(s, out));
    }
    sum
}
