//! The tasks of a graph, or why it has none.
ghost use Rattle.std.specs.Prelude.{◌≤◌, IfOk, length};
ghost use Rattle.yt_base.specs.Limits.{most_text_bytes};
ghost use Rattle.yt_answer.specs.Due.{IsDue};
ghost use Rattle.yt_cmd_check.specs.Tasks.{IsTasksText, tasks_verdict};

use crate::tasks_text::tasks_text;
use std::alloc::{AllocError, Global};
use yt_admit::{Admission, admit};
use yt_answer::Answer;

/// The tasks of the graph that these bytes say, whether they fit or not; or the line of the graph's first fault; or `notyet`, where an
/// operator is called. `Err` comes where memory ran out.
pub fn tasks_answer(alloc: Global, bytes: &[u8]) -> Result<Answer, AllocError>
    requires { length bytes.now ≤ most_text_bytes }
    ensures { IfOk result (λ a. IsDue (tasks_verdict {graph = bytes.now}) (IsTasksText {graph = bytes.now}) a.verdict a.text) }
{
    match admit(alloc, bytes)? {
        Admission::Refused(answer) => Ok(answer),
        Admission::Unfit(graph, _, set) => Ok(Answer::done(tasks_text(alloc, &graph, &set)?)),
        Admission::Accepted(_, accepted) => Ok(Answer::done(tasks_text(
            alloc,
            accepted.graph(),
            accepted.set(),
        )?)),
    }
}
