//! Inputs, outputs, resources and variables of the resolved graph.
ghost use Rattle.std.specs.Prelude.{◌≡◌, ◌++◌, map, OnOk, IfOk};
ghost use Rattle.std.specs.List.{flat_map};
ghost use Rattle.yt_graph.specs.AstPicture.{item_tree};
ghost use Rattle.yt_name_faults.specs.Parts.{trees};
ghost use Rattle.yt_names.specs.Resolved.{inputs_of, resolved_inputs, output_to, outputs_of, resolved_outputs, resources_of, own_resources_of, resolved_groups, var_of, out_head, every_of};

use crate::numbers::{count_of, number_of, size_of};
use std::alloc::{AllocError, Global};
use yt_graph::{
    Input, Inputs, Item, Num, OutDecl, OutHead, OutHeads, Output, Outputs, Var, VarDecl, Vars, Word,
};
use yt_list::{Name, Names};
use yt_name_faults::{Index, NameFault, Target, look_up};

/// A name of its own.
pub(crate) fn name(alloc: Global, word: &Word) -> Result<Name, AllocError>
    ensures { IfOk result (λ n. n ≡ word.now.text) }
{
    Ok(Name::from_vec(Vec::from_slice(alloc, word.text.as_slice())?))
}

/// The inputs.
pub(crate) fn resolve_inputs(alloc: Global, items: &[Item]) -> Result<Inputs, AllocError>
    ensures { IfOk result (λ inputs. inputs ≡ resolved_inputs (trees items.now)) }
{
    let mut inputs = Inputs::new(alloc);
    for item in items {
        add_input(alloc, &mut inputs, item)?;
    }
    Ok(inputs)
}

/// Adds an input, where a part is one.
#[tactic(auto, using(crate::proofs::ListLemmas::and_none))]
fn add_input(alloc: Global, inputs: &mut Inputs, item: &Item) -> Result<(), AllocError>
    ensures { OnOk result (inputs.new ≡ inputs.old ++ inputs_of (item_tree item.now)) }
{
    match item {
        Item::Input {
            name: word,
            width,
            period,
        } => inputs.push(Input {
            name: name(alloc, word)?,
            width: count_of(*width),
            period: size_of(*period),
        }),
        _ => Ok(()),
    }
}

/// The outputs.
pub(crate) fn resolve_outputs(
    alloc: Global,
    index: &Index,
    items: &[Item],
) -> Result<Outputs, AllocError>
    requires { items.now ≡ index.now }
    ensures { IfOk result (λ outputs. outputs ≡ resolved_outputs (trees index.now)) }
{
    let mut outputs = Outputs::new(alloc);
    for item in items {
        add_output(alloc, index, &mut outputs, item)?;
    }
    Ok(outputs)
}

/// Adds an output, where a part is one.
#[tactic(auto, using(crate::proofs::ListLemmas::and_none))]
fn add_output(
    alloc: Global,
    index: &Index,
    outputs: &mut Outputs,
    item: &Item,
) -> Result<(), AllocError>
    ensures { OnOk result (outputs.new ≡ outputs.old ++ outputs_of (trees index.now) (item_tree item.now)) }
{
    match item {
        Item::Output { name: word, path } => {
            let output = output_to(name(alloc, word)?, look_up(index, path));
            outputs.push(output)
        }
        _ => Ok(()),
    }
}

/// An output that shows what a path leads to.
fn output_to(name: Name, target: Result<Target, NameFault>) -> Output
    ensures { result ≡ output_to name target }
{
    match target {
        Ok(t) => Output {
            name,
            port: number_of(t.port),
            out: number_of(t.out),
        },
        Err(_) => Output {
            name,
            port: 0,
            out: 0,
        },
    }
}

/// The resources: those that are declared, and then those of processes.
pub(crate) fn resolve_groups(alloc: Global, items: &[Item]) -> Result<Names, AllocError>
    ensures { IfOk result (λ groups. groups ≡ resolved_groups (trees items.now)) }
{
    let mut groups = Names::new(alloc);
    add_resources(alloc, &mut groups, items)?;
    add_own_resources(alloc, &mut groups, items)?;
    Ok(groups)
}

/// Adds the resources that are declared.
fn add_resources(alloc: Global, groups: &mut Names, items: &[Item]) -> Result<(), AllocError>
    ensures { OnOk result (groups.new ≡ groups.old ++ flat_map resources_of (trees items.now)) }
{
    for item in items {
        add_resource(alloc, groups, item)?;
    }
    Ok(())
}

/// Adds a resource, where a part is one.
#[tactic(auto, using(crate::proofs::ListLemmas::and_none))]
fn add_resource(alloc: Global, groups: &mut Names, item: &Item) -> Result<(), AllocError>
    ensures { OnOk result (groups.new ≡ groups.old ++ resources_of (item_tree item.now)) }
{
    match item {
        Item::Resource { name: word } => groups.push(name(alloc, word)?),
        _ => Ok(()),
    }
}

/// Adds the resources of processes.
fn add_own_resources(alloc: Global, groups: &mut Names, items: &[Item]) -> Result<(), AllocError>
    ensures { OnOk result (groups.new ≡ groups.old ++ flat_map own_resources_of (trees items.now)) }
{
    for item in items {
        add_own_resource(alloc, groups, item)?;
    }
    Ok(())
}

/// Adds the resource that a process with variables is, where it is in none.
#[tactic(auto, using(crate::proofs::ListLemmas::and_none))]
fn add_own_resource(alloc: Global, groups: &mut Names, item: &Item) -> Result<(), AllocError>
    ensures { OnOk result (groups.new ≡ groups.old ++ own_resources_of (item_tree item.now)) }
{
    match item {
        Item::Process {
            name: word,
            inside,
            vars,
            ..
        } => {
            if inside.is_none() && !vars.is_empty() {
                groups.push(name(alloc, word)?)
            } else {
                Ok(())
            }
        }
        _ => Ok(()),
    }
}

/// Adds the variables of a process.
pub(crate) fn add_vars(
    alloc: Global,
    vars: &mut Vars,
    process: &Word,
    decls: &[VarDecl],
) -> Result<(), AllocError>
    ensures { OnOk result (vars.new ≡ vars.old ++ map (var_of process.now.text) decls.now) }
{
    for decl in decls {
        vars.push(Var {
            process: name(alloc, process)?,
            name: name(alloc, &decl.name)?,
            start: decl.start,
        })?;
    }
    Ok(())
}

/// The outs of a port.
pub(crate) fn resolve_outs(alloc: Global, decls: &[OutDecl]) -> Result<OutHeads, AllocError>
    ensures { IfOk result (λ outs. outs ≡ map out_head decls.now) }
{
    let mut outs = OutHeads::new(alloc);
    for decl in decls {
        outs.push(OutHead {
            name: name(alloc, &decl.name)?,
            width: count_of(decl.width),
            every: every_of(decl.every),
        })?;
    }
    Ok(outs)
}

/// Every how many jobs messages pass; 1 where it isn't written.
fn every_of(every: Option<Num>) -> u32
    ensures { result ≡ every_of every }
{
    match every {
        None => 1,
        Some(n) => count_of(n),
    }
}
