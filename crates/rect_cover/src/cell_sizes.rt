ghost use Rattle.std.specs.Prelude.{◌≡◌};

use std::marker::Model;

/// The sizes of a grid's cells, in bytes: by producer, and then by cell.
#[derive(Debug, Drop)]
pub struct CellSizes {
    sizes: Vec<u64>,
}

impl Model for CellSizes {
    ghost use Rattle.std.specs.Prelude.{List, ℕ};

    ghost Value = { List ℕ };

    ghost view = { λ list. list.sizes.items };
}

impl CellSizes {
    pub fn from_vec(sizes: Vec<u64>) -> Self
        ensures { result ≡ sizes.items }
    {
        CellSizes { sizes }
    }

    pub fn into_vec(self) -> Vec<u64>
        ensures { result.items ≡ self }
    {
        self.sizes
    }

    pub fn as_slice(&self) -> &[u64]
        ensures { result.now ≡ self.now }
    {
        self.sizes.as_slice()
    }
}
