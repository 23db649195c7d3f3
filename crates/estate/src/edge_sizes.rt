ghost use Rattle.std.specs.Prelude.{◌≡◌};

use crate::Sizes;
use std::marker::Model;

/// The sizes of the cells of each output edge of a part, in bytes.
#[derive(Debug, Drop)]
pub struct EdgeSizes {
    items: Vec<Sizes>,
}

impl Model for EdgeSizes {
    ghost use Rattle.std.specs.Prelude.{List, ℕ};

    ghost Value = { List (List ℕ) };

    ghost view = { λ list. list.items.items };
}

impl EdgeSizes {
    pub fn from_vec(items: Vec<Sizes>) -> Self
        ensures { result ≡ items.items }
    {
        EdgeSizes { items }
    }

    pub fn into_vec(self) -> Vec<Sizes>
        ensures { result.items ≡ self }
    {
        self.items
    }

    pub fn as_slice(&self) -> &[Sizes]
        ensures { result.now ≡ self.now }
    {
        self.items.as_slice()
    }
}
