//! The names of declarations, of operators and of resolved inputs.
ghost use Rattle.std.specs.Prelude.{◌≡◌};
ghost use Rattle.yt_graph.specs.AstPicture.{item_tree};
ghost use Rattle.yt_graph.specs.ItemNames.{item_name};

use crate::ast::{Item, OutDecl, PortDecl, VarDecl};
use crate::graph::Input;
use crate::operator::OpHead;
use yt_list::Named;

impl Named for VarDecl {
    ghost text = { λ v. v.name.text };

    fn name(&self) -> &[u8] {
        self.name.text.as_slice()
    }
}

impl Named for OutDecl {
    ghost text = { λ o. o.name.text };

    fn name(&self) -> &[u8] {
        self.name.text.as_slice()
    }
}

impl Named for PortDecl {
    ghost text = { λ p. p.name.text };

    fn name(&self) -> &[u8] {
        self.name.text.as_slice()
    }
}

impl Named for Item {
    ghost text = { λ i. item_name (item_tree i) };

    fn name(&self) -> &[u8] {
        match self {
            Item::Input { name, .. } => name.text.as_slice(),
            Item::Output { name, .. } => name.text.as_slice(),
            Item::Resource { name } => name.text.as_slice(),
            Item::Process { name, .. } => name.text.as_slice(),
        }
    }
}

impl Named for Input {
    ghost text = { λ i. i.name };

    fn name(&self) -> &[u8] {
        self.name.as_slice()
    }
}

impl Named for OpHead {
    ghost text = { λ o. o.name };

    fn name(&self) -> &[u8] {
        self.name.as_slice()
    }
}
