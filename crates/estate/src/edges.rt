ghost use Rattle.std.specs.Prelude.{◌≡◌, [], ◌∷◌, ◌++◌, IfOk, OnOk, OnErr};

use crate::Edge;
use row_core::NoMemory;
use std::alloc::Global;
use std::marker::Model;

/// The output edges of a part, each with its cells.
#[derive(Debug, Drop)]
pub struct Edges {
    items: Vec<Edge>,
}

impl Model for Edges {
    ghost use Rattle.std.specs.Prelude.{List, ℕ};

    ghost Value = { List (List (List ℕ)) };

    ghost view = { λ list. list.items.items };
}

impl Edges {
    pub fn new(alloc: Global) -> Self
        ensures { result ≡ [] }
    {
        Edges {
            items: Vec::new(alloc),
        }
    }

    pub fn from_vec(items: Vec<Edge>) -> Self
        ensures { result ≡ items.items }
    {
        Edges { items }
    }

    pub fn into_vec(self) -> Vec<Edge>
        ensures { result.items ≡ self }
    {
        self.items
    }

    pub fn as_slice(&self) -> &[Edge]
        ensures { result.now ≡ self.now }
    {
        self.items.as_slice()
    }

    pub fn push(&mut self, item: Edge) -> Result<(), NoMemory>
        ensures ok { OnOk result (self.new ≡ self.old ++ item ∷ []) }
        ensures err { OnErr result (self.new ≡ self.old) }
    {
        self.items.push(item)?;
        Ok(())
    }

    pub fn copy(&self, alloc: Global) -> Result<Edges, NoMemory>
        ensures { IfOk result (λ made. made ≡ self.now) }
    {
        let mut made = Edges::new(alloc);
        for item in self.items.as_slice() {
            made.push(item.copy(alloc)?)?;
        }
        Ok(made)
    }
}
