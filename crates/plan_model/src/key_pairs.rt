ghost use Rattle.std.specs.Prelude.{◌≡◌, ◌&&◌, nat_lt};
ghost use Rattle.std.specs.List.{list_all};

use std::marker::Model;

/// The key columns of a join: pairs of a left and a right column.
#[derive(Debug, Drop)]
pub struct KeyPairs {
    items: Vec<(u32, u32)>,
}

impl Model for KeyPairs {
    ghost use Rattle.std.specs.Prelude.{List, ℕ};

    ghost Value = { List (ℕ × ℕ) };

    ghost view = { λ list. list.items.items };
}

impl KeyPairs {
    pub fn from_vec(items: Vec<(u32, u32)>) -> Self
        ensures { result ≡ items.items }
    {
        KeyPairs { items }
    }

    pub fn into_vec(self) -> Vec<(u32, u32)>
        ensures { result.items ≡ self }
    {
        self.items
    }

    pub fn as_slice(&self) -> &[(u32, u32)]
        ensures { result.now ≡ self.now }
    {
        self.items.as_slice()
    }

    /// Whether the columns are below the widths of the sides.
    pub fn fit(&self, left: u32, right: u32) -> bool
        ensures { result ≡ list_all (λ pair. nat_lt pair.0 left && nat_lt pair.1 right) self.now }
    {
        self.items
            .iter()
            .all(|pair| pair.0 < left && pair.1 < right)
    }
}
