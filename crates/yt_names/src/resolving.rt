//! From the syntax tree to the resolved graph, or its first fault.
ghost use Rattle.std.specs.Prelude.{◌≡◌, [], map, IfOk, IfErr};
ghost use Rattle.yt_graph.specs.AstPicture.{ast_tree};
ghost use Rattle.yt_graph.specs.AstWellFormed.{IsWritable};
ghost use Rattle.yt_graph.specs.Picture.{graph_tree, port_tree};
ghost use Rattle.yt_graph.specs.WellFormed.{IsWellFormed};
ghost use Rattle.yt_name_faults.specs.Answer.{IsFirstFault};
ghost use Rattle.yt_name_faults.specs.Faults.{name_faults};
ghost use Rattle.yt_names.specs.Laws.{AreFineHeads};
ghost use Rattle.yt_name_faults.specs.Parts.{trees};
ghost use Rattle.yt_names.specs.Resolved.{resolved, resolved_vars, resolved_ports};

use crate::heads::{resolve_groups, resolve_inputs, resolve_outputs};
use crate::resolve_port::{Heads, add_part};
use std::alloc::{AllocError, Global};
use yt_graph::{Ast, Graph, Item, OpHead, Ports, Vars};
use yt_name_faults::{Index, NameFault, first_fault};

/// The graph that a tree's names stand for, or the fault of names that decides.
///
/// Of several faults the least place decides, and at one place the kind, in the order of [`NameFault`]. Takes the tree's
/// size times the logarithm of its ports.
pub fn resolve(alloc: Global, ast: &Ast, ops: &[OpHead]) -> Result<Graph, NameFault>
    // The graph is the one that the names stand for, and there is no fault.
    ensures ok { IfOk result (λ g. (name_faults (ast_tree ast.now) ops.now ≡ []) × (graph_tree g ≡ resolved (ast_tree ast.now) ops.now)) }

    // That graph is well formed, where the tree can be written, as each tree of a text can and each that `ast_ok` holds of,
    // and the operators are within their limits.
    ensures well_formed { IsWritable (ast_tree ast.now) → AreFineHeads ops.now → IfOk result (λ g. IsWellFormed (graph_tree g)) }

    // A fault is the one that decides.
    ensures err { IfErr result (λ fault. IsFirstFault (name_faults (ast_tree ast.now) ops.now) fault) }
{
    let items = ast.items.as_slice();
    let index = Index::new(alloc, items)?;
    match first_fault(alloc, &index, ops)? {
        Some(fault) => Err(fault),
        None => {
            let graph = resolve_all(alloc, &index, items, ops)?;
            Ok(graph)
        }
    }
}

/// The graph that the names of a tree without a fault stand for.
#[tactic(auto, unfolding(crate::specs::Resolved::resolved))]
fn resolve_all<'a>(
    alloc: Global,
    index: &Index<'a>,
    items: &'a [Item],
    ops: &'a [OpHead],
) -> Result<Graph, AllocError>
    requires { items.now ≡ index.now }
    ensures { IfOk result (λ g. graph_tree g ≡ resolved (trees index.now) ops.now) }
{
    let outputs = resolve_outputs(alloc, index, items)?;
    let heads = Heads {
        index,
        ops,
        inputs: resolve_inputs(alloc, items)?,
        groups: resolve_groups(alloc, items)?,
    };
    let (vars, ports) = resolve_parts(alloc, &heads)?;
    Ok(Graph {
        inputs: heads.inputs,
        outputs,
        groups: heads.groups,
        vars,
        ports,
    })
}

/// The variables and the ports.
fn resolve_parts(alloc: Global, heads: &Heads) -> Result<(Vars, Ports), AllocError>
    ensures vars { IfOk result (λ r. r.0 ≡ resolved_vars (trees heads.now.index.now)) }
    ensures ports { IfOk result (λ r. map port_tree r.1 ≡ resolved_ports (trees heads.now.index.now) heads.now.ops.now 0 (trees heads.now.index.now)) }
{
    let mut vars = Vars::new(alloc);
    let mut ports = Ports::new(alloc);
    for part in heads.index.parts() {
        add_part(alloc, heads, &mut vars, &mut ports, part)?;
    }
    Ok((vars, ports))
}
