//! Ports of the resolved graph.
ghost use Rattle.std.specs.Prelude.{◌≡◌, ◌++◌, length, map, OnOk, IfOk};
ghost use Rattle.yt_graph.specs.Picture.{block_tree, port_tree};
ghost use Rattle.yt_name_faults.specs.Parts.{port_of, tree_of, trees};
ghost use Rattle.yt_names.specs.Resolved.{number_among, resolved_inputs, resolved_groups, resolved_feed, feed_to, group_of, resolved_port, resolved_ports_of, resource_name, vars_of};
ghost use Rattle.std.specs.Option.{option_copied};

use crate::heads::{add_vars, name, resolve_outs};
use crate::numbers::{number_of, place_of};
use crate::resolve_handler::resolve_handler;
use crate::scope::Scope;
use crate::uses_var::block_uses_var;
use std::alloc::{AllocError, Global};
use yt_graph::{Feed, Inputs, Item, OpHead, Port, Ports, Source, Stmt, VarDecl, Vars, Word};
use yt_list::{Named, Names};
use yt_name_faults::{Index, NameFault, Part, PortPart, Target, look_up};
use yt_table::{NameTable, first_named};

/// What ports are resolved by: the names of the graph, the operators, and the inputs and resources.
#[derive(Drop)]
pub(crate) struct Heads<'i, 'a> {
    /// The names.
    pub(crate) index: &'i Index<'a>,
    /// The operators.
    pub(crate) ops: &'a [OpHead],
    /// The inputs.
    pub(crate) inputs: Inputs,
    /// The names of the resources.
    pub(crate) groups: Names,
    ghost inputs_are: { inputs ≡ resolved_inputs (trees index.now) },
    ghost groups_are: { groups ≡ resolved_groups (trees index.now) },
}

/// A process that is resolved: its name, that of its resource, its variables and the place of the first.
#[derive(Drop)]
pub(crate) struct Owner<'e, 'a> {
    name: &'a Word,
    key: &'a Word,
    vars: &'e NameTable<'a, VarDecl>,
    first: usize,
}

/// Adds the variables and ports of a part.
pub(crate) fn add_part(
    alloc: Global,
    heads: &Heads,
    vars: &mut Vars,
    ports: &mut Ports,
    part: &Part,
) -> Result<(), AllocError>
    ensures vars { OnOk result (vars.new ≡ vars.old ++ vars_of (tree_of part.now)) }
    ensures ports { OnOk result (map port_tree ports.new ≡ map port_tree ports.old ++ resolved_ports_of (trees heads.now.index.now) heads.now.ops.now (length vars.old) (tree_of part.now)) }
{
    match part.item {
        Item::Process { name, inside, .. } => {
            let owner = Owner {
                name,
                key: resource_word(name, inside.as_ref()),
                vars: &part.vars,
                first: vars.len(),
            };
            add_ports(alloc, heads, ports, &owner, &part.ports)?;
            add_vars(alloc, vars, name, part.vars.all())
        }
        _ => Ok(()),
    }
}

/// The word for a process's resource: the one that it is in, or its own.
fn resource_word<'a>(name: &'a Word, inside: Option<&'a Word>) -> &'a Word
    ensures { result.now.text ≡ resource_name name.now (option_copied inside.entry) }
{
    match inside {
        None => name,
        Some(word) => word,
    }
}

/// Adds the ports of a process.
fn add_ports(
    alloc: Global,
    heads: &Heads,
    ports: &mut Ports,
    owner: &Owner,
    parts: &[PortPart],
) -> Result<(), AllocError>
    ensures { OnOk result (map port_tree ports.new ≡ map port_tree ports.old ++ map (resolved_port (trees heads.now.index.now) owner.now.name.now.text owner.now.key.now.text heads.now.ops.now owner.now.vars.now owner.now.first) (map port_of parts.now)) }
{
    for part in parts {
        let port = resolve_port(alloc, heads, owner, part)?;
        ports.push(port)?;
    }
    Ok(())
}

/// What a port is by its names.
fn resolve_port(
    alloc: Global,
    heads: &Heads,
    owner: &Owner,
    part: &PortPart,
) -> Result<Port, AllocError>
    ensures { IfOk result (λ p. port_tree p ≡ resolved_port (trees heads.now.index.now) owner.now.name.now.text owner.now.key.now.text heads.now.ops.now owner.now.vars.now owner.now.first (port_of part.now)) }
{
    let decl = part.decl;
    let scope = Scope::new(owner.first, owner.vars, &part.outs, heads.ops);
    let handler = resolve_handler(alloc, &scope, decl.params.as_slice(), &decl.body)?;
    Ok(Port {
        process: name(alloc, owner.name)?,
        name: name(alloc, &decl.name)?,
        feed: resolve_feed(heads, &decl.source),
        group: group_of(heads, owner.key, &handler.body),
        params: place_of(decl.params.len()),
        locals: handler.locals,
        outs: resolve_outs(alloc, decl.outs.as_slice())?,
        body: handler.body,
    })
}

/// What a source is by its names.
fn resolve_feed(heads: &Heads, source: &Source) -> Feed
    ensures { result ≡ resolved_feed (trees heads.now.index.now) source.now }
{
    match source {
        Source::Input(word) => {
            Feed::Input(number_among(word.text.as_slice(), heads.inputs.as_slice()))
        }
        Source::Out(path) => feed_to(look_up(heads.index, path)),
    }
}

/// What a source is that leads to a target.
fn feed_to(target: Result<Target, NameFault>) -> Feed
    ensures { result ≡ feed_to target }
{
    match target {
        Ok(t) => Feed::Out {
            port: number_of(t.port),
            out: number_of(t.out),
        },
        Err(_) => Feed::Input(0),
    }
}

/// The resource that a handler is under: that of its process where it uses a variable, else none.
fn group_of(heads: &Heads, key: &Word, body: &[Stmt]) -> u32
    ensures { result ≡ group_of (resolved_groups (trees heads.now.index.now)) key.now.text (block_tree body.now) }
{
    if block_uses_var(body) {
        number_among(key.text.as_slice(), heads.groups.as_slice())
    } else {
        0
    }
}

/// The number from 1 of the first of these items that has a name; 0 where none has it.
fn number_among<T: Named>(word: &[u8], items: &[T]) -> u32
    ensures { result ≡ number_among word.now (map T.text items.now) }
{
    match first_named(items, word) {
        Some(place) => number_of(place),
        None => 0,
    }
}
