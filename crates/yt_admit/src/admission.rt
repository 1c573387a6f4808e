//! From the text of a graph to a graph that is accepted, or to why it isn't.
ghost use Rattle.std.specs.Prelude.{◌≡◌, ◌≤◌, IfOk, length};
ghost use Rattle.yt_graph.specs.AstPicture.{ast_tree};
ghost use Rattle.yt_graph.specs.AstWellFormed.{IsWritable};
ghost use Rattle.yt_base.specs.Limits.{most_text_bytes};
ghost use Rattle.yt_admit.specs.Admissions.{IsAdmissionOf};
ghost use Rattle.yt_admit.specs.Inside.Judged.{IsAdmissionIn};

use crate::judging::{Judged, judge};
use crate::lines::{cost_line, name_line, rate_line};
use crate::reading::{Reading, read_graph};
use std::alloc::{AllocError, Global};
use yt_answer::Answer;
use yt_fits::Unfit;
use yt_graph::{Ast, Graph};
use yt_rates::Accepted;
use yt_set::TaskSet;

/// What admitting a graph's text gives.
#[derive(Drop)]
pub enum Admission {
    /// The answer: the text gives no graph whose names, costs and rates are in order.
    Refused(Answer),
    /// The graph, of which these are the tasks, and the reason why they don't fit.
    Unfit(Graph, Unfit, TaskSet),
    /// The tree, and the graph that it stands for, whose tasks fit.
    Accepted(Ast, Accepted),
}

/// The accepted graph of a text; or the graph whose tasks don't fit, and why; or the answer to a text without a graph that is in
/// order. `Err` comes where memory ran out.
pub fn admit(alloc: Global, bytes: &[u8]) -> Result<Admission, AllocError>
    requires { length bytes.now ≤ most_text_bytes }
    ensures { IfOk result (λ admission. IsAdmissionOf bytes.now admission) }
{
    match read_graph(alloc, bytes)? {
        Reading::Tree(ast) => admit_tree(alloc, ast),
        Reading::Unread(answer) => Ok(Admission::Refused(answer)),
    }
}

/// The same of a tree that calls no operator. The caller shows that it can be written, as each is that `parse` gives. `Err` comes
/// where memory ran out.
fn admit_tree(alloc: Global, ast: Ast) -> Result<Admission, AllocError>
    requires { IsWritable (ast_tree ast) }
    ensures { IfOk result (λ admission. IsAdmissionIn (ast_tree ast) admission) }
{
    match judge(alloc, &ast)? {
        Judged::Misnamed(fault) => Ok(Admission::Refused(Answer::refused(name_line(
            alloc, fault,
        )?))),
        Judged::Costly(graph, fault) => Ok(Admission::Refused(Answer::refused(cost_line(
            alloc, &graph, fault,
        )?))),
        Judged::Misrated(graph, fault) => Ok(Admission::Refused(Answer::refused(rate_line(
            alloc, &graph, fault,
        )?))),
        Judged::Unfit(graph, why, set) => Ok(Admission::Unfit(graph, why, set)),
        Judged::Accepted(accepted) => Ok(Admission::Accepted(ast, accepted)),
    }
}
