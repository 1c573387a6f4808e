//! The faults of a process's ports.
ghost use Rattle.std.specs.Prelude.{◌≡◌, OnOk};
ghost use Rattle.yt_graph.specs.AstPicture.{item_tree, port_decl_tree};
ghost use Rattle.yt_name_faults.specs.First.{least_with};
ghost use Rattle.yt_name_faults.specs.Parts.{trees};
ghost use Rattle.yt_name_faults.specs.Paths.{ports_of};
ghost use Rattle.yt_name_faults.specs.Faults.{port_faults, ports_faults};

use crate::decl_faults::{declared_faults, outs_faults, width_faults};
use crate::env::Env;
use crate::fault::{LimitKind, NameFault};
use crate::handler_faults::handler_faults;
use crate::least::Least;
use crate::part::{Part, PortPart};
use crate::paths::source_width;
use crate::rules::Rules;
use std::alloc::{AllocError, Global};

/// Notes the faults of a process's ports, of which the graph may have so many more.
pub(crate) fn ports_faults(
    alloc: Global,
    rules: &Rules,
    least: &mut Least,
    part: &Part,
    left: usize,
) -> Result<(), AllocError>
    ensures { OnOk result (least.new ≡ least_with (ports_faults (trees rules.now.index.now) rules.now.ops.now part.now.vars (ports_of (item_tree part.now.item.now)) part.now.first part.now.first left (ports_of (item_tree part.now.item.now))) least.old) }
{
    let mut left = left;
    for (n, port) in part.ports.iter().enumerate() {
        port_faults(alloc, rules, least, part, port, part.first + n, left)?;
        left = left.saturating_sub(1);
    }
    Ok(())
}

/// Notes the faults of a port.
#[tactic(auto, using(crate::proofs::FirstLemmas::both))]
fn port_faults(
    alloc: Global,
    rules: &Rules,
    least: &mut Least,
    part: &Part,
    port: &PortPart,
    number: usize,
    left: usize,
) -> Result<(), AllocError>
    ensures { OnOk result (least.new ≡ least_with (port_faults (trees rules.now.index.now) rules.now.ops.now part.now.vars (ports_of (item_tree part.now.item.now)) part.now.first number left (port_decl_tree port.now.decl.now)) least.old) }
{
    let decl = port.decl;
    let first = part.port(decl.name.text.as_slice());
    declared_faults(least, &decl.name, number, first, left, LimitKind::Ports);
    let width = source_width(rules.index, &decl.source);
    width_faults(least, &decl.name, decl.params.len(), width);
    let comes_back = rules.comes_back(number);
    least.note_if(comes_back, NameFault::Cycle(decl.name.place));
    outs_faults(least, &port.outs);
    let env = Env::new(&part.vars, &port.outs, rules.ops);
    handler_faults(alloc, &env, least, decl.params.as_slice(), &decl.body)
}
