//! Makes the text of a graph.
ghost use Rattle.std.specs.Prelude.{◌≡◌, ◌++◌, ◌≤◌, length, OnOk, IfOk};
ghost use Rattle.std.specs.List.{flat_map};
ghost use Rattle.std.specs.String.{string_bytes};
ghost use Rattle.yt_base.specs.Limits.{most_text_bytes};
ghost use Rattle.yt_gen.specs.GraphText.{ends_text, graph_text, pool_text, process_text};
ghost use Rattle.yt_gen.specs.Pipelines.{pipelines};
ghost use Rattle.yt_gen.specs.declared.limits.TheConstants.{MOST_PIPELINES};

use crate::pipeline::period;
use std::alloc::{AllocError, Global};

/// The text of the graph of so many pipelines, in canonical form. `Err` comes where memory ran out.
///
/// Takes time linear in the text, which is short enough to be read as a file.
pub fn make_graph(alloc: Global, count: u32) -> Result<Vec<u8>, AllocError>
    requires { count ≤ MOST_PIPELINES }
    ensures text { IfOk result (λ text. text.items ≡ graph_text count) }
    ensures short { IfOk result (λ text. length text.items ≤ most_text_bytes) }
{
    let mut text = String::new(alloc);
    writeln!(text, "resource pool")?;
    put_all_ends(&mut text, count)?;
    put_processes(&mut text, count)?;
    Ok(text.into_bytes())
}

/// Adds the input and the output of each pipeline.
fn put_all_ends(text: &mut String, count: u32) -> Result<(), AllocError>
    ensures { OnOk result (string_bytes text.new ≡ string_bytes text.old ++ flat_map ends_text (pipelines count)) }
{
    for n in 0..count {
        put_ends(text, n + 1)?;
    }
    Ok(())
}

/// Adds the input and the output of a pipeline by its number.
fn put_ends(text: &mut String, i: u32) -> Result<(), AllocError>
    ensures { OnOk result (string_bytes text.new ≡ string_bytes text.old ++ ends_text i) }
{
    let period = period(i);
    writeln!(
        text,
        "input in{i}(1) period {period}\noutput out{i} from w{i}.g.o"
    )
}

/// Adds the process of each pipeline.
fn put_processes(text: &mut String, count: u32) -> Result<(), AllocError>
    ensures { OnOk result (string_bytes text.new ≡ string_bytes text.old ++ flat_map process_text (pipelines count)) }
{
    for n in 0..count {
        put_process(text, n + 1)?;
    }
    Ok(())
}

/// Adds the process of a pipeline by its number.
fn put_process(text: &mut String, i: u32) -> Result<(), AllocError>
    ensures { OnOk result (string_bytes text.new ≡ string_bytes text.old ++ process_text i) }
{
    let place = place(i);
    writeln!(
        text,
        "process w{i}{place} {{
  var s = {i}
  port f from in{i} (v) out o(1) {{
    let x = v
    repeat v % 8 max 7 {{
      x = x * 3 + s
    }}
    s = s + 1
    send o (x)
    send o (s)
  }}
  port g from w{i}.f.o (v) out o(1) {{
    s = s + v
    send o (s)
  }}
}}"
    )
}

/// Where the process of a pipeline stands: under the resource or not, as its head says it.
fn place(i: u32) -> &'static str
    ensures { result.now ≡ pool_text i }
{
    if i % 2 == 1 { " in pool" } else { "" }
}
