ghost use Rattle.std.specs.Prelude.{◌≡◌};

use row_core::Bytes;
use std::marker::Model;

/// The names of tables. A table's number is its place.
#[derive(Debug, Drop)]
pub struct TableNames {
    items: Vec<Bytes>,
}

impl Model for TableNames {
    ghost use Rattle.std.specs.Prelude.{List, ℕ};

    ghost Value = { List (List ℕ) };

    ghost view = { λ list. list.items.items };
}

impl TableNames {
    pub fn from_vec(items: Vec<Bytes>) -> Self
        ensures { result ≡ items.items }
    {
        TableNames { items }
    }

    pub fn into_vec(self) -> Vec<Bytes>
        ensures { result.items ≡ self }
    {
        self.items
    }

    pub fn as_slice(&self) -> &[Bytes]
        ensures { result.now ≡ self.now }
    {
        self.items.as_slice()
    }
}
