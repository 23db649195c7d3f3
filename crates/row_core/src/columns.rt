ghost use Rattle.std.specs.Prelude.{◌≡◌};

use std::marker::Model;

/// A list of columns by their places, from 0.
#[derive(Debug, Drop)]
pub struct Columns {
    columns: Vec<u32>,
}

impl Model for Columns {
    ghost use Rattle.std.specs.Prelude.{List, ℕ};

    ghost Value = { List ℕ };

    ghost view = { λ c. c.columns.items };
}

impl Columns {
    pub fn from_vec(columns: Vec<u32>) -> Self
        ensures { result ≡ columns.items }
    {
        Columns { columns }
    }

    pub fn into_vec(self) -> Vec<u32>
        ensures { result.items ≡ self }
    {
        self.columns
    }

    pub fn as_slice(&self) -> &[u32]
        ensures { result.now ≡ self.now }
    {
        self.columns.as_slice()
    }
}
