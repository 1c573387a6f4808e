//! What is printed of a run that is stopped at a tick.
ghost use Rattle.std.specs.Prelude.{◌≡◌, ◌++◌, IfOk, OnOk};
ghost use Rattle.yt_graph.specs.Picture.{graph_tree};
ghost use Rattle.yt_cmd_run.specs.Runs.{at_line, stop_text, var_line, var_lines};

use std::alloc::{AllocError, Global};
use yt_base::Text;
use yt_graph::{Graph, Var};

/// The text of a graph's variables, by place from 0, at a tick: a line for each, and then the tick. `Err` comes where memory ran out.
pub(crate) fn stop_text(
    alloc: Global,
    graph: &Graph,
    values: &[i64],
    tick: u32,
) -> Result<Text, AllocError>
    ensures { IfOk result (λ t. t ≡ stop_text (graph_tree graph.now) tick values.now) }
{
    let mut text = Text::new(alloc);
    put_vars(&mut text, graph.vars.as_slice(), values)?;
    put_at(&mut text, tick)?;
    Ok(text)
}

/// Adds a line for each variable.
fn put_vars(text: &mut Text, vars: &[Var], values: &[i64]) -> Result<(), AllocError>
    ensures { OnOk result (text.new ≡ text.old ++ var_lines vars.now values.now) }
{
    for (var, value) in vars.iter().zip(values) {
        put_var(text, var, *value)?;
    }
    Ok(())
}

/// Adds the line of a variable: `var PROCESS.NAME VALUE`.
fn put_var(text: &mut Text, var: &Var, value: i64) -> Result<(), AllocError>
    ensures { OnOk result (text.new ≡ text.old ++ var_line var.now value) }
{
    text.put(b"var ")?;
    text.put(var.process.as_slice())?;
    text.put(b".")?;
    text.put(var.name.as_slice())?;
    text.put(b" ")?;
    text.put_i64(value)?;
    text.put(b"\n")
}

/// Adds the line of the tick: `at TICK`.
fn put_at(text: &mut Text, tick: u32) -> Result<(), AllocError>
    ensures { OnOk result (text.new ≡ text.old ++ at_line tick) }
{
    text.put(b"at")?;
    text.put_field(u64::from(tick))?;
    text.put(b"\n")
}
