//! What is printed of a run.
ghost use Rattle.std.specs.Prelude.{◌≡◌, ◌∷◌, ◌++◌, All, IfOk, OnOk};
ghost use Rattle.std.specs.Fmt.{signed_decimal};
ghost use Rattle.yt_graph.specs.Labels.{labels_of};
ghost use Rattle.yt_graph.specs.Picture.{graph_tree};
ghost use Rattle.yt_log.specs.Segments.{segments_of};
ghost use Rattle.yt_run.specs.RunText.{out_line, run_text, spaced_values, told_text};
ghost use Rattle.yt_run_laws.specs.Values.{AreValues};

use crate::names::RunNames;
use std::alloc::{AllocError, Global};
use yt_base::Text;
use yt_graph::Graph;
use yt_log::{put_end, put_segment};
use yt_run::Told;
use yt_serial::OutLine;

/// The text of a run: its segments at their ends and its output lines at their times, a segment before the lines of its
/// end, and then its end. `Err` comes where memory ran out.
pub(crate) fn run_text(alloc: Global, graph: &Graph, told: &Told) -> Result<Text, AllocError>
    ensures text { IfOk result (λ t. t ≡ run_text (graph_tree graph.now) told.now.log told.now.outs) }
    ensures values { IfOk result (λ t. All (λ line. AreValues line.values) told.now.outs) }
{
    let names = RunNames::of(alloc, graph)?;
    let mut text = Text::new(alloc);
    put_told(&mut text, &names, told)?;
    put_end(&mut text, told.log.until())?;
    Ok(text)
}

/// Adds the segments of a run at their ends and its output lines at their times, a segment before the lines of its end.
fn put_told(text: &mut Text, names: &RunNames, told: &Told) -> Result<(), AllocError>
    requires { names.now.ports ≡ labels_of (graph_tree names.now.graph.now) }
    ensures text { OnOk result (text.new ≡ text.old ++ told_text (graph_tree names.now.graph.now) (segments_of told.now.log) told.now.outs) }
    ensures values { OnOk result (All (λ line. AreValues line.values) told.now.outs) }
{
    let segments = told.log.segments();
    let lines = told.outs.as_slice();
    let mut i = 0;
    let mut j = 0;
    'left: while i < segments.len() || j < lines.len() {
        if i < segments.len() && (j == lines.len() || segments[i].to <= lines[j].time) {
            put_segment(text, names.port(segments[i].job.task), &segments[i])?;
            i += 1;
        } else {
            put_line(text, names, &lines[j])?;
            j += 1;
        }
    }
    Ok(())
}

/// Adds an output line.
fn put_line(text: &mut Text, names: &RunNames, line: &OutLine) -> Result<(), AllocError>
    ensures text { OnOk result (text.new ≡ text.old ++ out_line (graph_tree names.now.graph.now) line.now) }
    ensures values { OnOk result (AreValues line.now.values) }
{
    text.put(b"out")?;
    text.put_field(line.time)?;
    text.put(b" ")?;
    text.put(names.output(line.output))?;
    put_values(text, line.values.as_slice())?;
    text.put(b"\n")
}

/// Adds each number behind a space.
fn put_values(text: &mut Text, values: &[i64]) -> Result<(), AllocError>
    ensures text { OnOk result (text.new ≡ text.old ++ spaced_values values.now) }
    ensures values { OnOk result (AreValues values.now) }
{
    for value in values {
        put_value(text, *value)?;
    }
    Ok(())
}

/// Adds a number behind a space.
fn put_value(text: &mut Text, value: i64) -> Result<(), AllocError>
    ensures { OnOk result (text.new ≡ text.old ++ 32 ∷ signed_decimal value) }
{
    text.put(b" ")?;
    text.put_i64(value)
}
