//! The parts of a graph, with the numbers of their ports and tables of what they declare.
ghost use Rattle.std.specs.Prelude.{◌≡◌, ◌+◌, ◌<◌, ◌^◌, ◌++◌, length, map, IfOk, IfSome, OnOk};
ghost use Rattle.yt_graph.specs.AstPicture.{item_tree, port_decl_tree};
ghost use Rattle.yt_table.specs.Tables.{first_of};
ghost use Rattle.std.specs.Coded.{codes};
ghost use Rattle.yt_graph.specs.contracts.ast.PortDecl as port_decl;
ghost use Rattle.yt_name_faults.specs.Names.{port_names, var_decls, port_decls};
ghost use Rattle.yt_name_faults.specs.Paths.{ports_of};

use std::alloc::{AllocError, Global};
use yt_graph::{Item, OutDecl, PortDecl, VarDecl};
use yt_table::NameTable;

/// A port with the places of its outs.
#[derive(Drop)]
pub struct PortPart<'a> {
    /// The port.
    pub decl: &'a PortDecl,
    /// Its outs.
    pub outs: NameTable<'a, OutDecl>,
    ghost same: { outs ≡ decl.now.outs },
}

/// A part of a graph with the numbers of its ports, and the places of its variables and of the outs of its ports. A part
/// that is no process has neither variables nor ports.
#[derive(Drop)]
pub struct Part<'a> {
    /// The part.
    pub item: &'a Item,
    /// The number from 0 that its first port has, if it has one.
    pub first: usize,
    /// Its variables.
    pub vars: NameTable<'a, VarDecl>,
    /// Its ports.
    pub ports: Vec<PortPart<'a>>,
    names: NameTable<'a, PortDecl>,
    ghost fits: { first + length ports.items < 2 ^ 64 },
    ghost vars_are: { vars ≡ var_decls item.now },
    ghost ports_are: { map (λ p. p.decl.now) ports.items ≡ port_decls item.now } by { Prim.hlevel (codes, port_decl.the_row.coded) },
    ghost named: { names ≡ port_decls item.now } by { Prim.hlevel (codes, port_decl.the_row.coded) },
}

impl<'a> Part<'a> {
    /// The place from 0, among its ports, of the first that has a name.
    pub(crate) fn place(&self, name: &[u8]) -> Option<usize>
        ensures first { result ≡ first_of name.now 0 (port_names (ports_of (item_tree self.now.item.now))) }
        ensures within { IfSome result (λ place. place < length self.now.ports.items) }
    {
        self.names.find(name)
    }

    /// The number of the first of its ports that has a name.
    pub(crate) fn port(&self, name: &[u8]) -> Option<usize>
        ensures { result ≡ first_of name.now self.now.first (port_names (ports_of (item_tree self.now.item.now))) }
    {
        let place = self.place(name)?;
        Some(self.first + place)
    }
}

/// A part of a graph, whose ports are added to those before it.
pub(crate) fn add_part<'a>(
    alloc: Global,
    item: &'a Item,
    all: &mut Vec<&'a PortDecl>,
) -> Result<Part<'a>, AllocError>
    ensures item { IfOk result (λ p. item_tree p.item.now ≡ item_tree item.now) }
    ensures first { IfOk result (λ p. p.first ≡ length all.old.items) }
    ensures ports { OnOk result (map (λ p. port_decl_tree p.now) all.new.items ≡ map (λ p. port_decl_tree p.now) all.old.items ++ ports_of (item_tree item.now)) }
{
    let first = all.len();
    let decls = ports_of(item);
    let ports = add_ports(alloc, decls, all)?;
    Ok(Part {
        item,
        first,
        vars: NameTable::new(alloc, vars_of(item))?,
        ports,
        names: NameTable::new(alloc, decls)?,
    })
}

/// The declarations of a part's variables.
fn vars_of(item: &Item) -> &[VarDecl]
    ensures { result.now ≡ var_decls item.now }
{
    match item {
        Item::Process { vars, .. } => vars.as_slice(),
        _ => &[],
    }
}

/// The declarations of a part's ports.
fn ports_of(item: &Item) -> &[PortDecl]
    ensures { result.now ≡ port_decls item.now }
{
    match item {
        Item::Process { ports, .. } => ports.as_slice(),
        _ => &[],
    }
}

/// Ports with the places of their outs. Adds them to those before them.
fn add_ports<'a>(
    alloc: Global,
    decls: &'a [PortDecl],
    all: &mut Vec<&'a PortDecl>,
) -> Result<Vec<PortPart<'a>>, AllocError>
    ensures all { OnOk result (map (λ p. port_decl_tree p.now) all.new.items ≡ map (λ p. port_decl_tree p.now) all.old.items ++ map port_decl_tree decls.now) }
    ensures ports { IfOk result (λ ports. map (λ p. p.decl.now) ports.items ≡ decls.now) }
{
    let mut ports = Vec::new(alloc);
    for decl in decls {
        let outs = NameTable::new(alloc, decl.outs.as_slice())?;
        ports.push(PortPart { decl, outs })?;
        all.push(decl)?;
    }
    Ok(ports)
}
