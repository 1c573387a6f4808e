//! The names of a graph's ports and outputs in the text of a run.
ghost use Rattle.std.specs.Prelude.{◌≡◌, IfOk};
ghost use Rattle.yt_graph.specs.Labels.{labels_of, output_name, port_label};
ghost use Rattle.yt_graph.specs.Picture.{graph_tree};

use std::alloc::{AllocError, Global};
use yt_admit::graph_labels;
use yt_graph::Graph;
use yt_list::{Names, numbered};

/// A graph with the names of its ports, which are made once for all lines of a run.
#[derive(Drop)]
pub(crate) struct RunNames<'a> {
    graph: &'a Graph,
    ports: Names,
}

impl<'a> RunNames<'a> {
    /// A graph with the names of its ports. `Err` comes where memory ran out.
    pub(crate) fn of(alloc: Global, graph: &'a Graph) -> Result<Self, AllocError>
        ensures graph { IfOk result (λ names. names.graph.now ≡ graph.now) }
        ensures ports { IfOk result (λ names. names.ports ≡ labels_of (graph_tree graph.now)) }
    {
        let ports = graph_labels(alloc, graph)?;
        Ok(RunNames { graph, ports })
    }

    /// The name of the port of a number, from 1: its process's, a dot, and its own. Where there is no such port, both are empty.
    pub(crate) fn port(&self, number: u32) -> &[u8]
        requires { self.now.ports ≡ labels_of (graph_tree self.now.graph.now) }
        ensures { result.now ≡ port_label (graph_tree self.now.graph.now) number }
    {
        match numbered(self.ports.as_slice(), number) {
            Some(label) => label.as_slice(),
            None => b".",
        }
    }

    /// The name of the output of a number, from 1; empty where there is no such output.
    pub(crate) fn output(&self, number: u32) -> &[u8]
        ensures { result.now ≡ output_name (graph_tree self.now.graph.now) number }
    {
        match numbered(self.graph.outputs.as_slice(), number) {
            Some(output) => output.name.as_slice(),
            None => b"",
        }
    }
}
