ghost use Rattle.std.specs.Prelude.{◌≡◌};

use std::marker::Model;

/// Sizes in bytes, each of up to 128 bits, since it may be a sum of sizes of 64 bits.
#[derive(Debug, Drop)]
pub struct BigSizes {
    sizes: Vec<u128>,
}

impl Model for BigSizes {
    ghost use Rattle.std.specs.Prelude.{List, ℕ};

    ghost Value = { List ℕ };

    ghost view = { λ list. list.sizes.items };
}

impl BigSizes {
    pub fn from_vec(sizes: Vec<u128>) -> Self
        ensures { result ≡ sizes.items }
    {
        BigSizes { sizes }
    }

    pub fn into_vec(self) -> Vec<u128>
        ensures { result.items ≡ self }
    {
        self.sizes
    }

    pub fn as_slice(&self) -> &[u128]
        ensures { result.now ≡ self.now }
    {
        self.sizes.as_slice()
    }
}
