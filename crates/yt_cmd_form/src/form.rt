//! The canonical text of a graph, or why it has none.
ghost use Rattle.std.specs.Prelude.{◌≤◌, IfOk, length};
ghost use Rattle.yt_base.specs.Limits.{most_text_bytes};
ghost use Rattle.yt_answer.specs.Due.{IsDue};
ghost use Rattle.yt_cmd_form.specs.Form.{IsFormText, form_verdict};

use std::alloc::{AllocError, Global};
use yt_admit::{Reading, read_graph};
use yt_answer::Answer;
use yt_printer::print_graph;

/// The canonical text of the graph that these bytes say; or the line of their first fault; or `notyet`, where an operator is called.
/// `Err` comes where memory ran out.
pub fn form_answer(alloc: Global, bytes: &[u8]) -> Result<Answer, AllocError>
    requires { length bytes.now ≤ most_text_bytes }
    ensures { IfOk result (λ a. IsDue (form_verdict {graph = bytes.now}) (IsFormText {graph = bytes.now}) a.verdict a.text) }
{
    match read_graph(alloc, bytes)? {
        Reading::Tree(ast) => Ok(Answer::done(print_graph(alloc, &ast)?)),
        Reading::Unread(answer) => Ok(answer),
    }
}
