//! Which syntax trees can be written.

ghost use Rattle.std.specs.Prelude.{◌≡◌, ◌↔◌, IsTrue, map};
ghost use Rattle.std.specs.List.{list_all};
ghost use Rattle.yt_graph.specs.AstPicture.{ast_expr_tree, ast_exprs_tree, ast_stmt_tree, ast_block_tree, port_decl_tree, item_tree, ast_tree};
ghost use Rattle.yt_graph.specs.AstWellFormed.{IsWritable};
ghost use Rattle.yt_grammar.specs.Grammar.{left_rank, rank_of};
ghost use Rattle.yt_grammar.specs.SamePlaces.{IsWritten};
ghost use Rattle.yt_grammar.specs.Writable.{is_count, is_start, is_expr, are_args, are_exprs, is_stmt, are_stmts, is_path, is_source, is_every, is_out, is_var, is_param, is_port, is_inside, is_item};

use crate::limits::{MOST_BLOCK_DEPTH, MOST_EXPR_DEPTH};
use crate::ranks::{COMPARISON, op_rank, right_rank};
use yt_graph::{
    Ast, AstExpr, AstExprParts, AstParts, AstStmt, Item, Num, Op2, OutDecl, Path, PortDecl, Source,
    VarDecl, Word, is_name, open_ast_expr, open_ast_stmt,
};

/// Whether some tokens spell the tree, so that it can be written.
pub fn ast_ok(ast: &Ast) -> bool
    ensures written { IsTrue result ↔ IsWritten (ast_tree ast.now) }
    ensures writable { IsTrue result → IsWritable (ast_tree ast.now) }
{
    items_ok(ast.items.as_slice())
}

/// Whether parts of a graph can be written.
fn items_ok(items: &[Item]) -> bool
    ensures { result ≡ list_all is_item (map item_tree items.now) }
{
    for item in items {
        if !item_ok(item) {
            return false;
        }
    }
    true
}

/// Whether a part of a graph can be written.
fn item_ok(item: &Item) -> bool
    ensures { result ≡ is_item (item_tree item.now) }
{
    match item {
        Item::Input {
            name,
            width,
            period,
        } => word_ok(name) && count_ok(width.value) && count_ok(period.value),
        Item::Output { name, path } => word_ok(name) && path_ok(path),
        Item::Resource { name } => word_ok(name),
        Item::Process {
            name,
            inside,
            vars,
            ports,
        } => {
            word_ok(name)
                && inside_ok(inside)
                && vars_ok(vars.as_slice())
                && ports_ok(ports.as_slice())
        }
    }
}

/// Whether the resource that a process is in can be written.
fn inside_ok(inside: &Option<Word>) -> bool
    ensures { result ≡ is_inside inside.now }
{
    match inside {
        None => true,
        Some(word) => word_ok(word),
    }
}

/// Whether variables can be written.
fn vars_ok(vars: &[VarDecl]) -> bool
    ensures { result ≡ list_all is_var vars.now }
{
    vars.iter().all(|var| var_ok(var))
}

/// Whether a variable can be written.
fn var_ok(var: &VarDecl) -> bool
    ensures { result ≡ is_var var.now }
{
    word_ok(&var.name) && start_ok(var.start)
}

/// Whether a start value can be written, behind `-` where it is negative.
fn start_ok(n: i64) -> bool
    ensures { result ≡ is_start n }
{
    n != i64::MIN
}

/// Whether ports can be written.
fn ports_ok(ports: &[PortDecl]) -> bool
    ensures { result ≡ list_all is_port (map port_decl_tree ports.now) }
{
    for port in ports {
        if !port_ok(port) {
            return false;
        }
    }
    true
}

/// Whether a port can be written.
fn port_ok(port: &PortDecl) -> bool
    ensures { result ≡ is_port (port_decl_tree port.now) }
{
    word_ok(&port.name)
        && source_ok(&port.source)
        && words_ok(port.params.as_slice())
        && outs_ok(port.outs.as_slice())
        && stmts_ok(&port.body, MOST_BLOCK_DEPTH - 1)
}

/// Whether what a port gets its messages from can be written.
fn source_ok(source: &Source) -> bool
    ensures { result ≡ is_source source.now }
{
    match source {
        Source::Input(word) => word_ok(word),
        Source::Out(path) => path_ok(path),
    }
}

/// Whether what names an out from anywhere can be written.
fn path_ok(path: &Path) -> bool
    ensures { result ≡ is_path path.now }
{
    word_ok(&path.process) && word_ok(&path.port) && word_ok(&path.out)
}

/// Whether outs can be written.
fn outs_ok(outs: &[OutDecl]) -> bool
    ensures { result ≡ list_all is_out outs.now }
{
    outs.iter().all(|out| out_ok(out))
}

/// Whether an out can be written.
fn out_ok(out: &OutDecl) -> bool
    ensures { result ≡ is_out out.now }
{
    word_ok(&out.name) && count_ok(out.width.value) && every_ok(out.every)
}

/// Whether every how many jobs messages pass can be written.
fn every_ok(every: Option<Num>) -> bool
    ensures { result ≡ is_every every }
{
    match every {
        None => true,
        Some(most) => count_ok(most.value),
    }
}

/// Whether statements can be written in which at most so many blocks stand in each other.
#[cycle(stmts)]
fn stmts_ok(b: &[AstStmt], room: u32) -> bool
    ensures { result ≡ are_stmts room (ast_block_tree b.now) }
{
    for s in b {
        if !stmt_ok(s, room) {
            return false;
        }
    }
    true
}

/// Whether a statement can be written in which at most so many blocks stand in each other.
#[cycle(stmts)]
fn stmt_ok(s: &AstStmt, room: u32) -> bool
    ensures { result ≡ is_stmt room (ast_stmt_tree s.now) }
{
    match open_ast_stmt(s) {
        AstParts::Let(word, value) => word_ok(word) && expr_ok(value, MOST_EXPR_DEPTH),
        AstParts::Set(word, value) => word_ok(word) && expr_ok(value, MOST_EXPR_DEPTH),
        AstParts::Send(word, values) => word_ok(word) && exprs_ok(values, MOST_EXPR_DEPTH),
        AstParts::Only(test, first) => expr_ok(test, MOST_EXPR_DEPTH)
            && room > 0
            && stmts_ok(first, room - 1),
        AstParts::Else(test, first, second) => {
            expr_ok(test, MOST_EXPR_DEPTH)
                && room > 0
                && stmts_ok(first, room - 1)
                && stmts_ok(second, room - 1)
        }
        AstParts::Repeat(count, max, body) => {
            expr_ok(count, MOST_EXPR_DEPTH)
                && count_ok(max.value)
                && room > 0
                && stmts_ok(body, room - 1)
        }
    }
}

/// Whether an expression of at most so much depth can be written.
#[cycle(exprs)]
fn expr_ok(e: &AstExpr, room: u32) -> bool
    ensures { result ≡ is_expr room (ast_expr_tree e.now) }
{
    if room == 0 {
        return false;
    }
    match open_ast_expr(e) {
        AstExprParts::Num(n) => count_ok(n),
        AstExprParts::Name(word) => word_ok(word),
        AstExprParts::Neg(inner) => rank(inner) <= 1 && expr_ok(inner, room - 1),
        AstExprParts::Not(inner) => rank(inner) <= 5 && expr_ok(inner, room - 1),
        AstExprParts::Two(op, left, right) => {
            rank(left) <= left_rank(op)
                && expr_ok(left, room - 1)
                && rank(right) <= right_rank(op)
                && expr_ok(right, room - 1)
        }
        AstExprParts::Paren(inner) => expr_ok(inner, room - 1),
        AstExprParts::Call(word, args) => word_ok(word) && args_ok(args, room - 1),
    }
}

/// Whether arguments of at most so much depth can be written: there is one or more.
#[cycle(exprs)]
fn args_ok(es: &[AstExpr], room: u32) -> bool
    ensures { result ≡ are_args room (ast_exprs_tree es.now) }
{
    let [first, rest @ ..] = es else {
        return false;
    };
    expr_ok(first, room) && exprs_ok(rest, room)
}

/// Whether expressions of at most so much depth can be written.
#[cycle(exprs)]
fn exprs_ok(es: &[AstExpr], room: u32) -> bool
    ensures { result ≡ are_exprs room (ast_exprs_tree es.now) }
{
    for e in es {
        if !expr_ok(e, room) {
            return false;
        }
    }
    true
}

/// How loosely an expression binds.
fn rank(e: &AstExpr) -> u32
    ensures { result ≡ rank_of (ast_expr_tree e.now) }
{
    match open_ast_expr(e) {
        AstExprParts::Neg(_) => 1,
        AstExprParts::Not(_) => 5,
        AstExprParts::Two(op, _, _) => op_rank(op),
        _ => 0,
    }
}

/// How loosely the left side of an operator binds at most: all but comparisons group to the left.
fn left_rank(op: Op2) -> u32
    ensures { result ≡ left_rank op }
{
    match op {
        Op2::Lt | Op2::Le | Op2::Gt | Op2::Ge | Op2::Eq | Op2::Ne => COMPARISON - 1,
        _ => op_rank(op),
    }
}

/// Whether names are words that aren't reserved.
fn words_ok(words: &[Word]) -> bool
    ensures { result ≡ list_all is_param words.now }
{
    words.iter().all(|word| word_ok(word))
}

/// Whether a name is a word that isn't reserved.
fn word_ok(word: &Word) -> bool
    ensures { result ≡ is_param word.now }
{
    is_name(word.text.as_slice())
}

/// Whether a number can be written without a sign.
fn count_ok(n: i64) -> bool
    ensures { result ≡ is_count n }
{
    n >= 0
}
