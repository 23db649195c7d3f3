ghost use Rattle.std.specs.Prelude.{◌≡◌};

use row_core::Bytes;
use std::marker::Model;

/// The contents of a table's files, in their order.
#[derive(Debug, Drop)]
pub struct Files {
    items: Vec<Bytes>,
}

impl Model for Files {
    ghost use Rattle.std.specs.Prelude.{List, ℕ};

    ghost Value = { List (List ℕ) };

    ghost view = { λ list. list.items.items };
}

impl Files {
    pub fn from_vec(items: Vec<Bytes>) -> Self
        ensures { result ≡ items.items }
    {
        Files { items }
    }

    pub fn into_vec(self) -> Vec<Bytes>
        ensures { result.items ≡ self }
    {
        self.items
    }

    pub fn as_slice(&self) -> &[Bytes]
        ensures { result.now ≡ self.now }
    {
        self.items.as_slice()
    }
}
