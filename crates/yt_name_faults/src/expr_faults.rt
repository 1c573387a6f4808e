//! The faults of expressions.
ghost use Rattle.std.specs.Prelude.{◌≡◌};
ghost use Rattle.std.specs.Option.{option_copied};
ghost use Rattle.yt_graph.specs.AstPicture.{ast_expr_tree, ast_exprs_tree};
ghost use Rattle.yt_name_faults.specs.First.{least_with};
ghost use Rattle.yt_name_faults.specs.Handlers.{expr_faults, exprs_faults, call_faults};

use crate::env::Env;
use crate::fault::NameFault;
use crate::least::Least;
use yt_graph::{AstExpr, AstExprParts, OpHead, Word, open_ast_expr};
use yt_table::NameSet;

/// Notes the faults of an expression.
#[cycle(expr_faults)]
#[tactic(auto, using(crate::proofs::FirstLemmas::both, crate::proofs::FirstLemmas::none_noted))]
pub(crate) fn expr_faults(env: &Env, visible: &NameSet, least: &mut Least, e: &AstExpr)
    ensures { least.new ≡ least_with (expr_faults env.now visible.now (ast_expr_tree e.now)) least.old }
{
    match open_ast_expr(e) {
        AstExprParts::Num(_) => {}
        AstExprParts::Name(word) => {
            let known = env.knows(visible, word.text.as_slice());
            least.note_if(!known, NameFault::Unknown(word.place));
        }
        AstExprParts::Neg(inner) => expr_faults(env, visible, least, inner),
        AstExprParts::Not(inner) => expr_faults(env, visible, least, inner),
        AstExprParts::Two(_, left, right) => {
            expr_faults(env, visible, least, left);
            expr_faults(env, visible, least, right);
        }
        AstExprParts::Paren(inner) => expr_faults(env, visible, least, inner),
        AstExprParts::Call(word, args) => {
            call_faults(least, word, args.len(), env.op(word.text.as_slice()));
            exprs_faults(env, visible, least, args);
        }
    }
}

/// Notes the faults of expressions.
#[cycle(expr_faults)]
#[tactic(auto, using(crate::proofs::FirstLemmas::both, crate::proofs::FirstLemmas::none_noted))]
pub(crate) fn exprs_faults(env: &Env, visible: &NameSet, least: &mut Least, es: &[AstExpr])
    ensures { least.new ≡ least_with (exprs_faults env.now visible.now (ast_exprs_tree es.now)) least.old }
{
    for e in es {
        expr_faults(env, visible, least, e);
    }
}

/// Notes the faults of an operator's word with so many arguments.
fn call_faults(least: &mut Least, word: &Word, count: usize, op: Option<&OpHead>)
    ensures { least.new ≡ least_with (call_faults word.now count (option_copied op.entry)) least.old }
{
    match op {
        None => least.note(NameFault::Unknown(word.place)),
        Some(head) => least.note_if(head.args as usize != count, NameFault::Width(word.place)),
    }
}
