//! Reading statements and blocks.

ghost use Rattle.std.specs.Prelude.{◌≡◌, ◌<◌, ◌≤◌, map, length, IfOk};
ghost use Rattle.yt_graph.specs.AstPicture.{ast_expr_tree, ast_exprs_tree, ast_stmt_tree, ast_block_tree};
ghost use Rattle.yt_grammar.specs.Inside.Reading.{in_braces, many, value_reader, values_reader, at_stmt, stmt_reader, if_reader, repeat_reader, block_reader};
ghost use Rattle.yt_parser.specs.Inside.Results.{IsReading};
ghost use Rattle.yt_grammar.specs.Inside.Parts.{value_list_reader, let_reader, send_reader, assign_reader};

use crate::cursor::{Cursor, Stop};
use crate::parse_expr::{expr, exprs};
use std::alloc::Global;
use yt_grammar::{Keyword, LOOSEST, MOST_EXPR_DEPTH, Mark};
use yt_graph::{AstExpr, AstExprs, AstStmt, Stmts, ast_if, ast_if_else, ast_repeat};
use yt_list::Items;

/// A block, the first of at most so many that stand in each other.
#[cycle(block)]
pub(crate) fn block(cursor: &mut Cursor<'_>, alloc: Global, blocks: u32) -> Result<Stmts, Stop>
    requires { 0 < blocks }
    ensures read { IsReading (λ b. ast_block_tree b.items) (block_reader blocks cursor.old) result cursor.new }
    ensures less { IfOk result (λ _. length cursor.new < length cursor.old) }
{
    let stmts = braced(cursor, alloc, blocks - 1)?;
    Ok(stmts.into_vec())
}

/// Statements in braces, in which so many blocks may stand in each other.
#[cycle(block)]
fn braced(cursor: &mut Cursor<'_>, alloc: Global, blocks: u32) -> Result<Items<AstStmt>, Stop>
    ensures read { IsReading (map ast_stmt_tree) (in_braces (many (at_stmt blocks) (stmt_reader (block_reader blocks) blocks)) cursor.old) result cursor.new }
    ensures less { IfOk result (λ _. length cursor.new < length cursor.old) }
{
    cursor.mark(Mark::LeftBrace)?;
    let stmts = stmts(cursor, alloc, blocks)?;
    cursor.mark(Mark::RightBrace)?;
    Ok(stmts)
}

/// Statements, as many as there are, in which so many blocks may stand in each other.
#[cycle(block)]
fn stmts(cursor: &mut Cursor<'_>, alloc: Global, blocks: u32) -> Result<Items<AstStmt>, Stop>
    ensures read { IsReading (map ast_stmt_tree) (many (at_stmt blocks) (stmt_reader (block_reader blocks) blocks) cursor.old) result cursor.new }
    ensures less { IfOk result (λ _. length cursor.new ≤ length cursor.old) }
{
    let mut stmts = Items::<AstStmt>::new(alloc);
    'stmts: while at_stmt(cursor, blocks) {
        let next = stmt(cursor, alloc, blocks)?;
        stmts.push(next)?;
    }
    Ok(stmts)
}

/// Whether a statement begins here.
fn at_stmt(cursor: &Cursor<'_>, blocks: u32) -> bool
    ensures { result ≡ at_stmt blocks cursor.now }
{
    cursor.at_word()
        || cursor.at_key(Keyword::Let)
        || cursor.at_key(Keyword::Send)
        || (blocks > 0 && (cursor.at_key(Keyword::If) || cursor.at_key(Keyword::Repeat)))
}

/// A statement, in which so many blocks may stand in each other.
#[cycle(block)]
fn stmt(cursor: &mut Cursor<'_>, alloc: Global, blocks: u32) -> Result<AstStmt, Stop>
    ensures read { IsReading ast_stmt_tree (stmt_reader (block_reader blocks) blocks cursor.old) result cursor.new }
    ensures less { IfOk result (λ _. length cursor.new < length cursor.old) }
{
    if cursor.at_key(Keyword::Let) {
        return let_local(cursor, alloc);
    }
    if cursor.at_key(Keyword::Send) {
        return send(cursor, alloc);
    }
    if blocks > 0 && cursor.at_key(Keyword::If) {
        return branch(cursor, alloc, blocks);
    }
    if blocks > 0 && cursor.at_key(Keyword::Repeat) {
        return repeat(cursor, alloc, blocks);
    }
    assign(cursor, alloc)
}

/// A new local.
fn let_local(cursor: &mut Cursor<'_>, alloc: Global) -> Result<AstStmt, Stop>
    ensures read { IsReading ast_stmt_tree (let_reader cursor.old) result cursor.new }
    ensures less { IfOk result (λ _. length cursor.new < length cursor.old) }
{
    cursor.key(Keyword::Let)?;
    let name = cursor.word(alloc)?;
    cursor.mark(Mark::Assign)?;
    let value = value(cursor, alloc)?;
    Ok(AstStmt::Let { name, value })
}

/// A new value of a local or a variable.
fn assign(cursor: &mut Cursor<'_>, alloc: Global) -> Result<AstStmt, Stop>
    ensures read { IsReading ast_stmt_tree (assign_reader cursor.old) result cursor.new }
    ensures less { IfOk result (λ _. length cursor.new < length cursor.old) }
{
    let name = cursor.word(alloc)?;
    cursor.mark(Mark::Assign)?;
    let value = value(cursor, alloc)?;
    Ok(AstStmt::Set { name, value })
}

/// A send.
fn send(cursor: &mut Cursor<'_>, alloc: Global) -> Result<AstStmt, Stop>
    ensures read { IsReading ast_stmt_tree (send_reader cursor.old) result cursor.new }
    ensures less { IfOk result (λ _. length cursor.new < length cursor.old) }
{
    cursor.key(Keyword::Send)?;
    let out = cursor.word(alloc)?;
    let values = values(cursor, alloc)?;
    Ok(AstStmt::Send { out, values })
}

/// An `if`.
#[cycle(block)]
fn branch(cursor: &mut Cursor<'_>, alloc: Global, blocks: u32) -> Result<AstStmt, Stop>
    requires { 0 < blocks }
    ensures read { IsReading ast_stmt_tree (if_reader (block_reader blocks) cursor.old) result cursor.new }
    ensures less { IfOk result (λ _. length cursor.new < length cursor.old) }
{
    cursor.key(Keyword::If)?;
    let test = value(cursor, alloc)?;
    let yes = block(cursor, alloc, blocks)?;
    if !cursor.at_key(Keyword::Else) {
        return Ok(ast_if(test, yes));
    }
    cursor.key(Keyword::Else)?;
    let no = block(cursor, alloc, blocks)?;
    Ok(ast_if_else(test, yes, no))
}

/// A `repeat`.
#[cycle(block)]
fn repeat(cursor: &mut Cursor<'_>, alloc: Global, blocks: u32) -> Result<AstStmt, Stop>
    requires { 0 < blocks }
    ensures read { IsReading ast_stmt_tree (repeat_reader (block_reader blocks) cursor.old) result cursor.new }
    ensures less { IfOk result (λ _. length cursor.new < length cursor.old) }
{
    cursor.key(Keyword::Repeat)?;
    let count = value(cursor, alloc)?;
    cursor.key(Keyword::Max)?;
    let max = cursor.number()?;
    let body = block(cursor, alloc, blocks)?;
    Ok(ast_repeat(count, max, body))
}

/// An expression of a statement.
#[tactic(auto, unfolding(yt_grammar::specs::Inside::Reading::value_reader))]
fn value(cursor: &mut Cursor<'_>, alloc: Global) -> Result<AstExpr, Stop>
    ensures read { IsReading ast_expr_tree (value_reader cursor.old) result cursor.new }
    ensures less { IfOk result (λ _. length cursor.new < length cursor.old) }
{
    let value = expr(cursor, alloc, MOST_EXPR_DEPTH, LOOSEST)?;
    Ok(value.expr)
}

/// The values of a send, in parentheses.
fn values(cursor: &mut Cursor<'_>, alloc: Global) -> Result<AstExprs, Stop>
    ensures read { IsReading (λ v. ast_exprs_tree v.items) (values_reader cursor.old) result cursor.new }
    ensures less { IfOk result (λ _. length cursor.new < length cursor.old) }
{
    cursor.mark(Mark::LeftParen)?;
    let values = value_list(cursor, alloc)?;
    cursor.mark(Mark::RightParen)?;
    Ok(values)
}

/// The values of a send.
#[tactic(auto, unfolding(yt_grammar::specs::Inside::Reading::value_reader))]
fn value_list(cursor: &mut Cursor<'_>, alloc: Global) -> Result<AstExprs, Stop>
    ensures read { IsReading (λ v. map ast_expr_tree v.items) (value_list_reader cursor.old) result cursor.new }
    ensures less { IfOk result (λ _. length cursor.new ≤ length cursor.old) }
{
    if cursor.at_mark(Mark::RightParen) {
        return Ok(Vec::new(alloc));
    }
    let values = exprs(cursor, alloc, MOST_EXPR_DEPTH)?;
    Ok(values.exprs)
}
