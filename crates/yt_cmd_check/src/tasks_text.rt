//! What is printed of a graph's tasks.
ghost use Rattle.std.specs.Prelude.{◌≡◌, [], IfOk};
ghost use Rattle.yt_graph.specs.Picture.{graph_tree};
ghost use Rattle.yt_graph.specs.WellFormed.{IsWellFormed};
ghost use Rattle.yt_rates.specs.Tables.{tasks_of};
ghost use Rattle.yt_list.specs.Numbered.{numbered_or};
ghost use Rattle.yt_cmd_check.specs.TaskLines.{named_tasks, tasks_text};

use std::alloc::{AllocError, Global};
use yt_admit::graph_labels;
use yt_base::{Line, Text};
use yt_fitting::task_label;
use yt_graph::Graph;
use yt_list::numbered;
use yt_set::{TaskSet, put_task};

/// A line for each task of a graph, whose tasks these are.
pub(crate) fn tasks_text(alloc: Global, graph: &Graph, set: &TaskSet) -> Result<Text, AllocError>
    requires well_formed { IsWellFormed (graph_tree graph.now) }
    requires tasks { set.now ≡ tasks_of (graph_tree graph.now) }
    ensures { IfOk result (λ t. t ≡ tasks_text (named_tasks (graph_tree graph.now))) }
{
    let labels = graph_labels(alloc, graph)?;
    let mut text = Text::new(alloc);
    for n in 0..set.len() {
        let task = set.task(n + 1);
        let mut line = Line::new();
        put_task(
            &mut line,
            task_label(labels.as_slice(), n + 1),
            task,
            group_name(graph, task.resource),
        );
        text.put(line.bytes())?;
        text.put(b"\n")?;
    }
    Ok(text)
}

/// The name of a resource of a graph, by its number from 1; empty where there is none, as for 0.
fn group_name(graph: &Graph, group: u32) -> &[u8]
    ensures { result.now ≡ numbered_or (graph_tree graph.now).groups group [] }
{
    match numbered(graph.groups.as_slice(), group) {
        Some(name) => name.as_slice(),
        None => b"",
    }
}
