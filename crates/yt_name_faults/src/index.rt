//! All names of a graph, with what they stand for.
ghost use Rattle.std.specs.Prelude.{◌≡◌, map, slice_get, IfOk};
ghost use Rattle.std.specs.Option.{option_map};
ghost use Rattle.yt_table.specs.Tables.{first_of};
ghost use Rattle.yt_name_faults.specs.Names.{item_names};
ghost use Rattle.yt_graph.specs.AstPicture.{port_decl_tree};
ghost use Rattle.yt_name_faults.specs.Parts.{placed_of, tree_of, trees};
ghost use Rattle.yt_name_faults.specs.Paths.{placed_from, placed_named, all_ports};

use crate::part::{Part, add_part};
use std::alloc::{AllocError, Global};
use std::marker::Model;
use yt_graph::{Item, PortDecl};
use yt_table::NameTable;

/// The parts of a graph, with the numbers of their ports and what their names stand for. A contract sees the list of parts.
#[derive(Drop)]
pub struct Index<'a> {
    items: NameTable<'a, Item>,
    parts: Vec<Part<'a>>,
    ports: Vec<&'a PortDecl>,
}

impl<'a> Model for Index<'a> {
    ghost use Rattle.std.specs.Prelude.{◌≡◌, List, map};
    ghost use Rattle.std.specs.Coded.{codes};
    ghost use Rattle.yt_graph.specs.contracts.ast.Item as item;
    ghost use Rattle.yt_graph.specs.declared.ast.Item as graph;
    ghost use Rattle.yt_graph.specs.AstPicture.{port_decl_tree};
    ghost use Rattle.yt_name_faults.specs.Parts.{placed_of, trees};
    ghost use Rattle.yt_name_faults.specs.Paths.{placed_from, all_ports};

    ghost Value = { List graph.Item };

    ghost coded = { Prim.hlevel (codes, item.the_row.coded) };

    ghost view = { λ x. x.items };

    ghost invariant = { λ x. (map placed_of x.parts.items ≡ placed_from 0 (trees x.items)) × (map (λ p. port_decl_tree p.now) x.ports.items ≡ all_ports (trees x.items)) };
}

impl<'a> Index<'a> {
    /// These parts.
    pub fn new(alloc: Global, all: &'a [Item]) -> Result<Self, AllocError>
        ensures { IfOk result (λ x. x ≡ all.now) }
    {
        let items = NameTable::new(alloc, all)?;
        let mut parts = Vec::new(alloc);
        let mut ports = Vec::new(alloc);
        for item in all {
            let part = add_part(alloc, item, &mut ports)?;
            parts.push(part)?;
        }
        Ok(Index {
            items,
            parts,
            ports,
        })
    }

    /// The place of the first declaration of a name in the common set.
    pub(crate) fn place(&self, name: &[u8]) -> Option<usize>
        ensures { result ≡ first_of name.now 0 (item_names (trees self.now)) }
    {
        self.items.find(name)
    }

    /// All parts, in order.
    pub fn parts(&self) -> &[Part<'a>]
        ensures items { map tree_of result.now ≡ trees self.now }
        ensures placed { map placed_of result.now ≡ placed_from 0 (trees self.now) }
    {
        &self.parts
    }

    /// All ports, by their numbers.
    pub(crate) fn ports(&self) -> &[&'a PortDecl]
        ensures { map (λ p. port_decl_tree p.now) result.now ≡ all_ports (trees self.now) }
    {
        &self.ports
    }

    /// The part that a name of the common set stands for.
    pub(crate) fn named(&self, name: &[u8]) -> Option<&Part<'a>>
        ensures { option_map (λ p. placed_of p.now) result ≡ placed_named (trees self.now) name.now }
    {
        let n = self.place(name)?;
        self.part(n)
    }

    /// The part at a place.
    pub(crate) fn part(&self, n: usize) -> Option<&Part<'a>>
        ensures { option_map (λ p. placed_of p.now) result ≡ slice_get (placed_from 0 (trees self.now)) n }
    {
        self.parts.get(n)
    }
}
