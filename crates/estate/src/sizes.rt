ghost use Rattle.std.specs.Prelude.{◌≡◌, [], ◌∷◌, ◌++◌, IfOk, OnOk, OnErr};

use row_core::NoMemory;
use std::alloc::Global;
use std::marker::Model;

/// Sizes in bytes, in their order: of a table's files, or of an edge's cells.
#[derive(Debug, Drop)]
pub struct Sizes {
    items: Vec<u64>,
}

impl Model for Sizes {
    ghost use Rattle.std.specs.Prelude.{List, ℕ};

    ghost Value = { List ℕ };

    ghost view = { λ list. list.items.items };
}

impl Sizes {
    pub fn new(alloc: Global) -> Self
        ensures { result ≡ [] }
    {
        Sizes {
            items: Vec::new(alloc),
        }
    }

    pub fn from_vec(items: Vec<u64>) -> Self
        ensures { result ≡ items.items }
    {
        Sizes { items }
    }

    pub fn into_vec(self) -> Vec<u64>
        ensures { result.items ≡ self }
    {
        self.items
    }

    pub fn as_slice(&self) -> &[u64]
        ensures { result.now ≡ self.now }
    {
        self.items.as_slice()
    }

    pub fn push(&mut self, item: u64) -> Result<(), NoMemory>
        ensures ok { OnOk result (self.new ≡ self.old ++ item ∷ []) }
        ensures err { OnErr result (self.new ≡ self.old) }
    {
        self.items.push(item)?;
        Ok(())
    }
}
