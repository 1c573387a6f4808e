//! Reading expressions: each function reads what binds no more loosely than a rank, with so many levels of depth or, below
//! its own level, so much room.

ghost use Rattle.std.specs.Prelude.{◌≡◌, ◌+◌, ◌^◌, ◌<◌, ◌≤◌, map, length, IfOk, None, Some};
ghost use Rattle.yt_graph.specs.AstPicture.{two_sides, ast_expr_tree, ast_exprs_tree};
ghost use Rattle.yt_grammar.specs.declared.sign.Mark.TheVariants.{Comma};
ghost use Rattle.yt_grammar.specs.Grammar.{right_rank, loosest};
ghost use Rattle.yt_grammar.specs.Inside.Reading.{made, behind, behind_mark, one_or_more, op_at, chain, turns_at, args_reader, prim_reader, rank_reader, expr_reader};
ghost use Rattle.yt_parser.specs.Inside.Results.{IsReading};
ghost use Rattle.yt_grammar.specs.Inside.Parts.{paren_reader, name_or_call_reader};

use crate::cursor::{Cursor, Stop};
use crate::deep::{
    DeepExpr, DeepExprs, deep_call, deep_minus, deep_name, deep_negation, deep_number, deep_paren,
    deep_two,
};
use std::alloc::Global;
use yt_grammar::{COMPARISON, Keyword, LOOSEST, Mark, right_rank};
use yt_graph::{AstExpr, Op2};
use yt_list::Items;

/// An expression that binds no more loosely than `rank`, of a depth up to `levels`.
#[cycle(expr)]
pub(crate) fn expr(
    cursor: &mut Cursor<'_>,
    alloc: Global,
    levels: u32,
    rank: u32,
) -> Result<DeepExpr, Stop>
    requires some { 0 < levels }
    requires rank { rank ≤ loosest }
    ensures read { IsReading (λ d. ast_expr_tree d.expr) (expr_reader levels rank cursor.old) result cursor.new }
    ensures less { IfOk result (λ _. length cursor.new < length cursor.old) }
    ensures depth { IfOk result (λ d. d.depth ≤ levels) }
{
    ranked(cursor, alloc, levels - 1, rank)
}

/// An expression that binds no more loosely than `rank`, whose parts have depths up to `room`.
#[cycle(expr)]
fn ranked(cursor: &mut Cursor<'_>, alloc: Global, room: u32, rank: u32) -> Result<DeepExpr, Stop>
    requires room { room + 1 < 2 ^ 32 }
    requires rank { rank ≤ loosest }
    ensures read { IsReading (λ d. ast_expr_tree d.expr) (rank_reader (expr_reader room) room rank cursor.old) result cursor.new }
    ensures less { IfOk result (λ _. length cursor.new < length cursor.old) }
    ensures depth { IfOk result (λ d. d.depth ≤ room + 1) }
{
    match rank {
        0 => prim(cursor, alloc, room),
        1 => negative(cursor, alloc, room),
        5 => negation(cursor, alloc, room),
        _ => {
            let left = ranked(cursor, alloc, room, rank - 1)?;
            chain(cursor, alloc, room, rank, left)
        }
    }
}

/// `-` and an expression, or what binds tighter.
#[cycle(expr)]
fn negative(cursor: &mut Cursor<'_>, alloc: Global, room: u32) -> Result<DeepExpr, Stop>
    requires room { room + 1 < 2 ^ 32 }
    ensures read { IsReading (λ d. ast_expr_tree d.expr) (rank_reader (expr_reader room) room 1 cursor.old) result cursor.new }
    ensures less { IfOk result (λ _. length cursor.new < length cursor.old) }
    ensures depth { IfOk result (λ d. d.depth ≤ room + 1) }
{
    if room == 0 || !cursor.at_mark(Mark::Minus) {
        return prim(cursor, alloc, room);
    }
    cursor.mark(Mark::Minus)?;
    let inner = expr(cursor, alloc, room, 1)?;
    Ok(deep_minus(alloc, inner)?)
}

/// `not` and an expression, or what binds tighter.
#[cycle(expr)]
fn negation(cursor: &mut Cursor<'_>, alloc: Global, room: u32) -> Result<DeepExpr, Stop>
    requires room { room + 1 < 2 ^ 32 }
    ensures read { IsReading (λ d. ast_expr_tree d.expr) (rank_reader (expr_reader room) room 5 cursor.old) result cursor.new }
    ensures less { IfOk result (λ _. length cursor.new < length cursor.old) }
    ensures depth { IfOk result (λ d. d.depth ≤ room + 1) }
{
    if room == 0 || !cursor.at_key(Keyword::Not) {
        return ranked(cursor, alloc, room, 4);
    }
    cursor.key(Keyword::Not)?;
    let inner = expr(cursor, alloc, room, 5)?;
    Ok(deep_negation(alloc, inner)?)
}

/// Operators of one rank and their right sides, behind a left side.
#[cycle(expr)]
fn chain(
    cursor: &mut Cursor<'_>,
    alloc: Global,
    room: u32,
    rank: u32,
    first: DeepExpr,
) -> Result<DeepExpr, Stop>
    requires room { room + 1 < 2 ^ 32 }
    requires first { first.depth ≤ room + 1 }
    ensures read { IsReading (λ d. ast_expr_tree d.expr) (chain (expr_reader room) room rank (turns_at rank room) (ast_expr_tree first.expr) cursor.old) result cursor.new }
    ensures less { IfOk result (λ _. length cursor.new ≤ length cursor.old) }
    ensures depth { IfOk result (λ d. d.depth ≤ room + 1) }
{
    let mut left = first;
    let turns = turns_at(rank, room);
    'links: for _ in 0..turns {
        let Some(op) = cursor.op_at(rank) else {
            return Ok(left);
        };
        if left.depth > room {
            return Ok(left);
        }
        left = link(cursor, alloc, room, op, left)?;
    }
    Ok(left)
}

/// How many operators of a rank may follow each other: one comparison, and of others no more than there is room for.
fn turns_at(rank: u32, room: u32) -> u32
    requires { room + 1 < 2 ^ 32 }
    ensures { result ≡ turns_at rank room }
{
    if rank == COMPARISON { 1 } else { room + 1 }
}

/// An operator and its right side, behind a left side.
#[cycle(expr)]
fn link(
    cursor: &mut Cursor<'_>,
    alloc: Global,
    room: u32,
    op: Op2,
    left: DeepExpr,
) -> Result<DeepExpr, Stop>
    requires room { room + 1 < 2 ^ 32 }
    requires left { left.depth ≤ room }
    ensures read { IsReading (λ d. ast_expr_tree d.expr) (made (two_sides op (ast_expr_tree left.expr)) (expr_reader room (right_rank op) (behind cursor.old))) result cursor.new }
    ensures less { IfOk result (λ _. length cursor.new < length cursor.old) }
    ensures depth { IfOk result (λ d. d.depth ≤ room + 1) }
{
    cursor.advance();
    let right = expr(cursor, alloc, room, right_rank(op))?;
    Ok(deep_two(alloc, op, left, right)?)
}

/// A number, an expression in parentheses, a name or a call.
#[cycle(expr)]
fn prim(cursor: &mut Cursor<'_>, alloc: Global, room: u32) -> Result<DeepExpr, Stop>
    requires room { room + 1 < 2 ^ 32 }
    ensures read { IsReading (λ d. ast_expr_tree d.expr) (prim_reader (expr_reader room) room cursor.old) result cursor.new }
    ensures less { IfOk result (λ _. length cursor.new < length cursor.old) }
    ensures depth { IfOk result (λ d. d.depth ≤ room + 1) }
{
    if cursor.at_number() {
        let n = cursor.number()?;
        return Ok(deep_number(n.value));
    }
    if room > 0 && cursor.at_mark(Mark::LeftParen) {
        return parenthesised(cursor, alloc, room);
    }
    name_or_call(cursor, alloc, room)
}

/// An expression in parentheses.
#[cycle(expr)]
fn parenthesised(cursor: &mut Cursor<'_>, alloc: Global, room: u32) -> Result<DeepExpr, Stop>
    requires some { 0 < room }
    requires room { room + 1 < 2 ^ 32 }
    ensures read { IsReading (λ d. ast_expr_tree d.expr) (paren_reader (expr_reader room) cursor.old) result cursor.new }
    ensures less { IfOk result (λ _. length cursor.new < length cursor.old) }
    ensures depth { IfOk result (λ d. d.depth ≤ room + 1) }
{
    cursor.mark(Mark::LeftParen)?;
    let inner = expr(cursor, alloc, room, LOOSEST)?;
    cursor.mark(Mark::RightParen)?;
    Ok(deep_paren(alloc, inner)?)
}

/// A name or a call.
#[cycle(expr)]
fn name_or_call(cursor: &mut Cursor<'_>, alloc: Global, room: u32) -> Result<DeepExpr, Stop>
    requires room { room + 1 < 2 ^ 32 }
    ensures read { IsReading (λ d. ast_expr_tree d.expr) (name_or_call_reader (expr_reader room) room cursor.old) result cursor.new }
    ensures less { IfOk result (λ _. length cursor.new < length cursor.old) }
    ensures depth { IfOk result (λ d. d.depth ≤ room + 1) }
{
    let word = cursor.word(alloc)?;
    if room == 0 || !cursor.at_mark(Mark::LeftParen) {
        return Ok(deep_name(word));
    }
    let args = args(cursor, alloc, room)?;
    Ok(deep_call(word, args))
}

/// The arguments of a call, in parentheses.
#[cycle(expr)]
fn args(cursor: &mut Cursor<'_>, alloc: Global, room: u32) -> Result<DeepExprs, Stop>
    requires some { 0 < room }
    requires room { room + 1 < 2 ^ 32 }
    ensures read { IsReading (λ d. ast_exprs_tree d.exprs.items) (args_reader (expr_reader room) cursor.old) result cursor.new }
    ensures less { IfOk result (λ _. length cursor.new < length cursor.old) }
    ensures depth { IfOk result (λ d. d.depth ≤ room) }
{
    cursor.mark(Mark::LeftParen)?;
    let args = exprs(cursor, alloc, room)?;
    cursor.mark(Mark::RightParen)?;
    Ok(args)
}

/// Expressions with commas between them.
#[cycle(expr)]
pub(crate) fn exprs(cursor: &mut Cursor<'_>, alloc: Global, levels: u32) -> Result<DeepExprs, Stop>
    requires { 0 < levels }
    ensures read { IsReading (λ d. map ast_expr_tree d.exprs.items) (one_or_more (expr_reader levels loosest) cursor.old) result cursor.new }
    ensures less { IfOk result (λ _. length cursor.new < length cursor.old) }
    ensures depth { IfOk result (λ d. d.depth ≤ levels) }
{
    let mut exprs = Items::<AstExpr>::new(alloc);
    let first = expr(cursor, alloc, levels, LOOSEST)?;
    let mut depth = first.depth;
    exprs.push(first.expr)?;
    'exprs: while cursor.at_mark(Mark::Comma) {
        let next = next_expr(cursor, alloc, levels)?;
        depth = depth.max(next.depth);
        exprs.push(next.expr)?;
    }
    Ok(DeepExprs {
        exprs: exprs.into_vec(),
        depth,
    })
}

/// An expression behind a comma.
#[cycle(expr)]
fn next_expr(cursor: &mut Cursor<'_>, alloc: Global, levels: u32) -> Result<DeepExpr, Stop>
    requires { 0 < levels }
    ensures read { IsReading (λ d. ast_expr_tree d.expr) (behind_mark Comma (expr_reader levels loosest) cursor.old) result cursor.new }
    ensures less { IfOk result (λ _. length cursor.new < length cursor.old) }
    ensures depth { IfOk result (λ d. d.depth ≤ levels) }
{
    cursor.mark(Mark::Comma)?;
    expr(cursor, alloc, levels, LOOSEST)
}
