ghost use Rattle.std.specs.Prelude.{◌≡◌};

use crate::Loss;
use std::marker::Model;

/// The losses to come of an estate in memory.
#[derive(Debug, Drop)]
pub struct Losses {
    items: Vec<Loss>,
}

impl Model for Losses {
    ghost use Rattle.std.specs.Prelude.{List};
    ghost use Rattle.estate.specs.declared.loss.Loss.{Loss};

    ghost Value = { List Loss };

    ghost view = { λ list. list.items.items };
}

impl Losses {
    pub fn from_vec(items: Vec<Loss>) -> Self
        ensures { result ≡ items.items }
    {
        Losses { items }
    }

    pub fn into_vec(self) -> Vec<Loss>
        ensures { result.items ≡ self }
    {
        self.items
    }

    pub fn as_slice(&self) -> &[Loss]
        ensures { result.now ≡ self.now }
    {
        self.items.as_slice()
    }
}
