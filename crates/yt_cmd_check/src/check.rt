//! Whether the tasks of a graph fit.
ghost use Rattle.std.specs.Prelude.{◌≤◌, IfOk, length};
ghost use Rattle.yt_base.specs.Limits.{most_text_bytes};
ghost use Rattle.yt_answer.specs.Due.{IsDue};
ghost use Rattle.yt_cmd_check.specs.Check.{IsCheckText, check_verdict};

use std::alloc::{AllocError, Global};
use yt_admit::{Admission, admit, unfit_graph_answer};
use yt_answer::Answer;
use yt_fitting::accepted_answer;

/// Whether the tasks of the graph that these bytes say fit, with their load; or why they don't; or the line of the graph's first fault; or
/// `notyet`, where an operator is called. `Err` comes where memory ran out.
pub fn check_answer(alloc: Global, bytes: &[u8]) -> Result<Answer, AllocError>
    requires { length bytes.now ≤ most_text_bytes }
    ensures { IfOk result (λ a. IsDue (check_verdict {graph = bytes.now}) (IsCheckText {graph = bytes.now}) a.verdict a.text) }
{
    match admit(alloc, bytes)? {
        Admission::Refused(answer) => Ok(answer),
        Admission::Unfit(graph, why, set) => unfit_graph_answer(alloc, &graph, &set, &why),
        Admission::Accepted(_, accepted) => {
            accepted_answer(alloc, accepted.set(), accepted.load())
        }
    }
}
