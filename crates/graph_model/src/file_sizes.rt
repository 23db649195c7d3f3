ghost use Rattle.std.specs.Prelude.{◌≡◌};

use estate::Sizes;
use std::marker::Model;

/// The sizes of each table's files in bytes, by the tables' numbers.
#[derive(Debug, Drop)]
pub struct FileSizes {
    items: Vec<Sizes>,
}

impl Model for FileSizes {
    ghost use Rattle.std.specs.Prelude.{List, ℕ};

    ghost Value = { List (List ℕ) };

    ghost view = { λ list. list.items.items };
}

impl FileSizes {
    pub fn from_vec(items: Vec<Sizes>) -> Self
        ensures { result ≡ items.items }
    {
        FileSizes { items }
    }

    pub fn into_vec(self) -> Vec<Sizes>
        ensures { result.items ≡ self }
    {
        self.items
    }

    pub fn as_slice(&self) -> &[Sizes]
        ensures { result.now ≡ self.now }
    {
        self.items.as_slice()
    }
}
