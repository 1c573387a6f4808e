//! Puts a task's line.
ghost use Rattle.std.specs.Prelude.{◌≡◌, ◌≤◌, ◌↔◌, [], length};
ghost use Rattle.yt_set.specs.Limits.{most_name_bytes};
ghost use Rattle.yt_set.specs.Printed.{task_line};

use crate::task::Task;
use yt_base::Line;

/// Puts a task's line into an empty line, without a line feed: `task NAME COST PERIOD`, and the name of its resource where it
/// is under one. The caller shows that both names have at most 65 bytes, and that the resource's is empty exactly where there
/// is none.
pub fn put_task(line: &mut Line, label: &[u8], task: Task, group: &[u8])
    requires empty { line.old ≡ [] }
    requires label { length label.now ≤ most_name_bytes }
    requires group { length group.now ≤ most_name_bytes }
    requires none { (group.now ≡ []) ↔ (task.resource ≡ 0) }
    ensures { line.new ≡ task_line label.now task group.now }
{
    line.put(b"task ");
    line.put(label);
    line.put(b" ");
    line.put_u64(task.cost);
    line.put(b" ");
    line.put_u64(task.period);
    if task.resource != 0 {
        line.put(b" ");
        line.put(group);
    }
}
