ghost use Rattle.std.specs.Prelude.{◌≡◌, [], ◌∷◌, ◌++◌, IfOk, OnOk, OnErr};

use row_core::{Bytes, NoMemory};
use std::alloc::Global;
use std::marker::Model;

/// The cells of one output edge of a part.
#[derive(Debug, Drop)]
pub struct Edge {
    items: Vec<Bytes>,
}

impl Model for Edge {
    ghost use Rattle.std.specs.Prelude.{List, ℕ};

    ghost Value = { List (List ℕ) };

    ghost view = { λ list. list.items.items };
}

impl Edge {
    pub fn new(alloc: Global) -> Self
        ensures { result ≡ [] }
    {
        Edge {
            items: Vec::new(alloc),
        }
    }

    pub fn from_vec(items: Vec<Bytes>) -> Self
        ensures { result ≡ items.items }
    {
        Edge { items }
    }

    pub fn into_vec(self) -> Vec<Bytes>
        ensures { result.items ≡ self }
    {
        self.items
    }

    pub fn as_slice(&self) -> &[Bytes]
        ensures { result.now ≡ self.now }
    {
        self.items.as_slice()
    }

    pub fn push(&mut self, item: Bytes) -> Result<(), NoMemory>
        ensures ok { OnOk result (self.new ≡ self.old ++ item ∷ []) }
        ensures err { OnErr result (self.new ≡ self.old) }
    {
        self.items.push(item)?;
        Ok(())
    }

    pub fn copy(&self, alloc: Global) -> Result<Edge, NoMemory>
        ensures { IfOk result (λ made. made ≡ self.now) }
    {
        let mut made = Edge::new(alloc);
        for item in self.items.as_slice() {
            made.push(Bytes::from_slice(alloc, item.as_slice())?)?;
        }
        Ok(made)
    }
}
