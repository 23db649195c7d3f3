ghost use Rattle.std.specs.Prelude.{◌≡◌};

use std::marker::Model;

/// Subtasks of one vertex, by their numbers.
#[derive(Debug, Drop)]
pub struct Subtasks {
    subtasks: Vec<u32>,
}

impl Model for Subtasks {
    ghost use Rattle.std.specs.Prelude.{List, ℕ};

    ghost Value = { List ℕ };

    ghost view = { λ list. list.subtasks.items };
}

impl Subtasks {
    pub fn from_vec(subtasks: Vec<u32>) -> Self
        ensures { result ≡ subtasks.items }
    {
        Subtasks { subtasks }
    }

    pub fn into_vec(self) -> Vec<u32>
        ensures { result.items ≡ self }
    {
        self.subtasks
    }

    pub fn as_slice(&self) -> &[u32]
        ensures { result.now ≡ self.now }
    {
        self.subtasks.as_slice()
    }
}
