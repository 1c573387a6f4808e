//! The text of statements.

ghost use Rattle.std.specs.Prelude.{◌≡◌, ◌+◌, ◌^◌, ◌<◌, ◌++◌, codes, OnOk};
ghost use Rattle.std.specs.Fmt.{signed_decimal};
ghost use Rattle.yt_graph.specs.AstPicture.{ast_expr_tree, ast_stmt_tree, ast_block_tree};
ghost use Rattle.yt_graph.specs.AstWellFormed.{ast_stmt_depth, ast_block_depth};
ghost use Rattle.yt_grammar.specs.CanonicalText.{braced, expr_layout, stmt_layout, stmts_layout, text_of};

use crate::pieces::{put_indent, put_word};
use crate::print_expr::{print_expr, print_exprs};
use std::alloc::AllocError;
use yt_base::Text;
use yt_graph::{AstExpr, AstParts, AstStmt, Num, open_ast_stmt};

/// Adds the lines of a statement that stands in so many braces.
#[cycle(stmt)]
fn print_stmt(out: &mut Text, braces: usize, s: &AstStmt) -> Result<(), AllocError>
    requires { braces + ast_stmt_depth (ast_stmt_tree s.now) < 2 ^ 64 }
    ensures { OnOk result (out.new ≡ out.old ++ text_of (stmt_layout braces (ast_stmt_tree s.now))) }
{
    put_indent(out, braces)?;
    match open_ast_stmt(s) {
        AstParts::Let(word, value) => {
            out.put(b"let ")?;
            put_word(out, word)?;
            out.put(b" = ")?;
            print_expr(out, value)?;
            out.put(b"\n")
        }
        AstParts::Set(word, value) => {
            put_word(out, word)?;
            out.put(b" = ")?;
            print_expr(out, value)?;
            out.put(b"\n")
        }
        AstParts::Send(word, values) => {
            out.put(b"send ")?;
            put_word(out, word)?;
            out.put(b" (")?;
            print_exprs(out, values)?;
            out.put(b")\n")
        }
        AstParts::Only(test, first) => {
            print_test(out, test)?;
            print_block(out, braces, first)?;
            out.put(b"\n")
        }
        AstParts::Else(test, first, second) => {
            print_test(out, test)?;
            print_block(out, braces, first)?;
            out.put(b" else ")?;
            print_block(out, braces, second)?;
            out.put(b"\n")
        }
        AstParts::Repeat(count, max, body) => {
            print_count(out, count, max)?;
            print_block(out, braces, body)?;
            out.put(b"\n")
        }
    }
}

/// Adds what stands in front of the block of an `if`.
fn print_test(out: &mut Text, test: &AstExpr) -> Result<(), AllocError>
    ensures { OnOk result (out.new ≡ out.old ++ codes "if " ++ text_of (expr_layout (ast_expr_tree test.now)) ++ codes " ") }
{
    out.put(b"if ")?;
    print_expr(out, test)?;
    out.put(b" ")
}

/// Adds what stands in front of the block of a `repeat`.
fn print_count(out: &mut Text, count: &AstExpr, max: Num) -> Result<(), AllocError>
    ensures { OnOk result (out.new ≡ out.old ++ codes "repeat " ++ text_of (expr_layout (ast_expr_tree count.now)) ++ codes " max " ++ signed_decimal max.value ++ codes " ") }
{
    out.put(b"repeat ")?;
    print_expr(out, count)?;
    out.put(b" max ")?;
    out.put_i64(max.value)?;
    out.put(b" ")
}

/// Adds a block that is opened in so many braces: the lines of its statements between its own.
#[cycle(stmt)]
pub(crate) fn print_block(out: &mut Text, braces: usize, b: &[AstStmt]) -> Result<(), AllocError>
    requires { braces + 1 + ast_block_depth (ast_block_tree b.now) < 2 ^ 64 }
    ensures { OnOk result (out.new ≡ out.old ++ text_of (braced braces (stmts_layout (braces + 1) (ast_block_tree b.now)))) }
{
    out.put(b"{\n")?;
    for s in b {
        print_stmt(out, braces + 1, s)?;
    }
    put_indent(out, braces)?;
    out.put(b"}")
}
