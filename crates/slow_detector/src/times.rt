ghost use Rattle.std.specs.Prelude.{◌≡◌};

use std::marker::Model;

/// How long the finished subtasks of a vertex ran, in milliseconds, in any order.
#[derive(Debug, Drop)]
pub struct Times {
    times: Vec<u64>,
}

impl Model for Times {
    ghost use Rattle.std.specs.Prelude.{List, ℕ};

    ghost Value = { List ℕ };

    ghost view = { λ list. list.times.items };
}

impl Times {
    pub fn from_vec(times: Vec<u64>) -> Self
        ensures { result ≡ times.items }
    {
        Times { times }
    }

    pub fn into_vec(self) -> Vec<u64>
        ensures { result.items ≡ self }
    {
        self.times
    }

    pub fn as_slice(&self) -> &[u64]
        ensures { result.now ≡ self.now }
    {
        self.times.as_slice()
    }
}
