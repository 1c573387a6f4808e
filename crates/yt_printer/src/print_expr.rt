//! The text of expressions.

ghost use Rattle.std.specs.Prelude.{◌≡◌, ◌++◌, OnOk};
ghost use Rattle.yt_graph.specs.AstPicture.{ast_expr_tree, ast_exprs_tree};
ghost use Rattle.yt_grammar.specs.Grammar.{op_lexeme};
ghost use Rattle.yt_grammar.specs.CanonicalText.{expr_layout, exprs_layout, lexeme_text, text_of};

use crate::pieces::put_word;
use std::alloc::AllocError;
use yt_base::Text;
use yt_graph::{AstExpr, AstExprParts, Op2, open_ast_expr};

/// What an operator is written as.
fn op_text(op: Op2) -> &'static [u8]
    ensures { result.now ≡ lexeme_text (op_lexeme op) }
{
    match op {
        Op2::Or => b"or",
        Op2::And => b"and",
        Op2::Lt => b"<",
        Op2::Le => b"<=",
        Op2::Gt => b">",
        Op2::Ge => b">=",
        Op2::Eq => b"==",
        Op2::Ne => b"!=",
        Op2::Add => b"+",
        Op2::Sub => b"-",
        Op2::Mul => b"*",
        Op2::Div => b"/",
        Op2::Rem => b"%",
    }
}

/// Adds the text of an expression.
#[cycle(expr)]
pub(crate) fn print_expr(out: &mut Text, e: &AstExpr) -> Result<(), AllocError>
    ensures { OnOk result (out.new ≡ out.old ++ text_of (expr_layout (ast_expr_tree e.now))) }
{
    match open_ast_expr(e) {
        AstExprParts::Num(n) => out.put_i64(n),
        AstExprParts::Name(word) => put_word(out, word),
        AstExprParts::Neg(inner) => {
            out.put(b"-")?;
            print_expr(out, inner)
        }
        AstExprParts::Not(inner) => {
            out.put(b"not ")?;
            print_expr(out, inner)
        }
        AstExprParts::Two(op, left, right) => {
            print_expr(out, left)?;
            out.put(b" ")?;
            out.put(op_text(op))?;
            out.put(b" ")?;
            print_expr(out, right)
        }
        AstExprParts::Paren(inner) => {
            out.put(b"(")?;
            print_expr(out, inner)?;
            out.put(b")")
        }
        AstExprParts::Call(word, args) => {
            put_word(out, word)?;
            out.put(b"(")?;
            print_exprs(out, args)?;
            out.put(b")")
        }
    }
}

/// Adds the texts of expressions, with a comma and a space between them.
#[cycle(expr)]
pub(crate) fn print_exprs(out: &mut Text, es: &[AstExpr]) -> Result<(), AllocError>
    ensures { OnOk result (out.new ≡ out.old ++ text_of (exprs_layout (ast_exprs_tree es.now))) }
{
    let [first, rest @ ..] = es else {
        return Ok(());
    };
    print_expr(out, first)?;
    for e in rest {
        out.put(b", ")?;
        print_expr(out, e)?;
    }
    Ok(())
}
