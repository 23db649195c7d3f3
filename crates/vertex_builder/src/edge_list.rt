ghost use Rattle.std.specs.Prelude.{◌≡◌, ◌++◌, ◌∷◌, [], OnOk, OnErr};

use crate::Edge;
use row_core::NoMemory;
use std::marker::Model;

/// Edges of a plan, in order of consumer and input.
#[derive(Debug, Drop)]
pub struct EdgeList {
    items: Vec<Edge>,
}

impl Model for EdgeList {
    ghost use Rattle.std.specs.Prelude.{List};
    ghost use Rattle.vertex_builder.specs.declared.edge.Edge.{Edge};

    ghost Value = { List Edge };

    ghost view = { λ list. list.items.items };
}

impl EdgeList {
    pub fn from_vec(items: Vec<Edge>) -> Self
        ensures { result ≡ items.items }
    {
        EdgeList { items }
    }

    pub fn into_vec(self) -> Vec<Edge>
        ensures { result.items ≡ self }
    {
        self.items
    }

    pub fn as_slice(&self) -> &[Edge]
        ensures { result.now ≡ self.now }
    {
        self.items.as_slice()
    }

    pub fn push(&mut self, edge: Edge) -> Result<(), NoMemory>
        ensures ok { OnOk result (self.new ≡ self.old ++ edge ∷ []) }
        ensures err { OnErr result (self.new ≡ self.old) }
    {
        self.items.push(edge)?;
        Ok(())
    }
}
