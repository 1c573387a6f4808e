//! The names of a graph's ports and outs in texts.
ghost use Rattle.std.specs.Prelude.{◌≡◌, ◌∷◌, ◌++◌, IfOk, OnOk};
ghost use Rattle.yt_graph.specs.Labels.{label_of, labels_of, out_name, port_label};
ghost use Rattle.yt_graph.specs.Picture.{graph_tree, port_tree};

use std::alloc::{AllocError, Global};
use yt_base::Text;
use yt_graph::{Graph, Port};
use yt_list::{Name, Names, numbered};

/// The names of a graph's ports, in order: each its process's, a dot, and its own. `Err` comes where memory ran out.
pub fn graph_labels(alloc: Global, graph: &Graph) -> Result<Names, AllocError>
    ensures { IfOk result (λ labels. labels ≡ labels_of (graph_tree graph.now)) }
{
    let mut labels = Names::new(alloc);
    for port in graph.ports.as_slice() {
        labels.push(label(alloc, port)?)?;
    }
    Ok(labels)
}

/// The name of a port: its process's, a dot, and its own.
fn label(alloc: Global, port: &Port) -> Result<Name, AllocError>
    ensures { IfOk result (λ label. label ≡ label_of (port_tree port.now)) }
{
    let mut label = port.process.as_slice().to_vec(alloc)?;
    label.push(b'.')?;
    label.extend_from_slice(port.name.as_slice())?;
    Ok(Name::from_vec(label))
}

/// Adds the name of the port of a number, from 1: its process's, a dot, and its own. Where there is no such port, both are
/// empty. `Err` comes where memory ran out.
pub(crate) fn put_label(text: &mut Text, graph: &Graph, number: u32) -> Result<(), AllocError>
    ensures { OnOk result (text.new ≡ text.old ++ port_label (graph_tree graph.now) number) }
{
    let (process, port) = names_of_port(graph, number);
    text.put(process)?;
    text.put(b".")?;
    text.put(port)
}

/// The names of the process and of the port of a number, from 1; both are empty where there is no such port.
fn names_of_port(graph: &Graph, number: u32) -> (&[u8], &[u8])
    ensures { result.0.now ++ 46 ∷ result.1.now ≡ port_label (graph_tree graph.now) number }
{
    match numbered(graph.ports.as_slice(), number) {
        Some(port) => (port.process.as_slice(), port.name.as_slice()),
        None => (b"", b""),
    }
}

/// The name of an out of a port, both by their numbers from 1; empty where there is no such out.
pub(crate) fn name_of_out(graph: &Graph, port: u32, out: u32) -> &[u8]
    ensures { result.now ≡ out_name (graph_tree graph.now) port out }
{
    match numbered(graph.ports.as_slice(), port) {
        Some(port) => match numbered(port.outs.as_slice(), out) {
            Some(out) => out.name.as_slice(),
            None => b"",
        },
        None => b"",
    }
}
