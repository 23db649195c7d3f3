ghost use Rattle.std.specs.Prelude.{◌≡◌};

use std::marker::Model;

/// The tasks that a task reads from, by their numbers, each as often as it reads from it.
#[derive(Debug, Drop)]
pub struct Producers {
    items: Vec<usize>,
}

impl Model for Producers {
    ghost use Rattle.std.specs.Prelude.{List, ℕ};

    ghost Value = { List ℕ };

    ghost view = { λ list. list.items.items };
}

impl Producers {
    pub fn from_vec(items: Vec<usize>) -> Self
        ensures { result ≡ items.items }
    {
        Producers { items }
    }

    pub fn into_vec(self) -> Vec<usize>
        ensures { result.items ≡ self }
    {
        self.items
    }

    pub fn as_slice(&self) -> &[usize]
        ensures { result.now ≡ self.now }
    {
        self.items.as_slice()
    }
}
