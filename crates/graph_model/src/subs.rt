ghost use Rattle.std.specs.Prelude.{◌≡◌};

use crate::Sub;
use std::marker::Model;

/// Subtasks, in an order that counts.
#[derive(Debug, Drop)]
pub struct Subs {
    items: Vec<Sub>,
}

impl Model for Subs {
    ghost use Rattle.std.specs.Prelude.{List, ℕ};
    ghost use Rattle.graph_model.specs.declared.sub.Sub.{Sub};

    ghost Value = { List Sub };

    ghost view = { λ list. list.items.items };
}

impl Subs {
    pub fn from_vec(items: Vec<Sub>) -> Self
        ensures { result ≡ items.items }
    {
        Subs { items }
    }

    pub fn into_vec(self) -> Vec<Sub>
        ensures { result.items ≡ self }
    {
        self.items
    }

    pub fn as_slice(&self) -> &[Sub]
        ensures { result.now ≡ self.now }
    {
        self.items.as_slice()
    }
}
