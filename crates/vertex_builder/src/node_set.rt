ghost use Rattle.std.specs.Prelude.{◌≡◌};

use std::marker::Model;

/// A set of nodes by their numbers, in any order.
#[derive(Debug, Drop)]
pub struct NodeSet {
    items: Vec<u32>,
}

impl Model for NodeSet {
    ghost use Rattle.std.specs.Prelude.{List, ℕ};

    ghost Value = { List ℕ };

    ghost view = { λ list. list.items.items };
}

impl NodeSet {
    pub fn from_vec(items: Vec<u32>) -> Self
        ensures { result ≡ items.items }
    {
        NodeSet { items }
    }

    pub fn into_vec(self) -> Vec<u32>
        ensures { result.items ≡ self }
    {
        self.items
    }

    pub fn as_slice(&self) -> &[u32]
        ensures { result.now ≡ self.now }
    {
        self.items.as_slice()
    }
}
