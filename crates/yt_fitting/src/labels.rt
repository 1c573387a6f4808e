//! The names of tasks in printed texts.
ghost use Rattle.std.specs.Prelude.{◌≡◌, []};
ghost use Rattle.yt_list.specs.Numbered.{numbered_or};

use yt_list::{Name, numbered};

/// The name of the task of a number, from 1; empty where there is no such task.
pub fn task_label(labels: &[Name], task: u32) -> &[u8]
    ensures { result.now ≡ numbered_or labels.now task [] }
{
    match numbered(labels, task) {
        Some(label) => label.as_slice(),
        None => b"",
    }
}
