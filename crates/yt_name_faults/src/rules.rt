//! What all parts of a graph are judged by.
ghost use Rattle.std.specs.Prelude.{◌≡◌, length, map, IfOk};
ghost use Rattle.yt_name_faults.specs.Parts.{trees};
ghost use Rattle.yt_name_faults.specs.Paths.{ports_before, steps_back, comes_back};

use crate::chains::{far_back, goes_on};
use crate::index::Index;
use crate::paths::port_before;
use std::alloc::{AllocError, Global};
use yt_graph::OpHead;

/// The names of a graph, where its chains of sources lead, and the operators.
#[derive(Drop)]
pub(crate) struct Rules<'i, 'a> {
    /// The names.
    pub(crate) index: &'i Index<'a>,
    /// The operators.
    pub(crate) ops: &'a [OpHead],
    far: Vec<Option<usize>>,
    ghost led: { far.items ≡ map (steps_back (ports_before (trees index.now)) (length (ports_before (trees index.now)))) (ports_before (trees index.now)) },
}

impl<'i, 'a> Rules<'i, 'a> {
    /// These names and operators.
    pub(crate) fn new(
        alloc: Global,
        index: &'i Index<'a>,
        ops: &'a [OpHead],
    ) -> Result<Self, AllocError>
        ensures index { IfOk result (λ r. r.index.now ≡ index.now) }
        ensures ops { IfOk result (λ r. r.ops.now ≡ ops.now) }
    {
        let before = befores(alloc, index)?;
        let far = far_back(alloc, &before)?;
        Ok(Rules { index, ops, far })
    }

    /// Whether the chain of a port comes back to a port that is in it already.
    pub(crate) fn comes_back(&self, port: usize) -> bool
        ensures { result ≡ comes_back (ports_before (trees self.now.index.now)) port }
    {
        goes_on(&self.far, port)
    }
}

/// The port before each port in its chain of sources.
fn befores(alloc: Global, index: &Index) -> Result<Vec<Option<usize>>, AllocError>
    ensures { IfOk result (λ v. v.items ≡ ports_before (trees index.now)) }
{
    let ports = index.ports();
    let mut all = Vec::with_capacity(alloc, ports.len())?;
    for port in ports {
        all.push(port_before(index, &port.source))?;
    }
    Ok(all)
}
