ghost use Rattle.std.specs.Prelude.{◌≡◌};

use crate::Widening;
use std::marker::Model;

/// The joins that were widened.
#[derive(Debug, Drop)]
pub struct Widenings {
    items: Vec<Widening>,
}

impl Model for Widenings {
    ghost use Rattle.std.specs.Prelude.{List};
    ghost use Rattle.vertex_builder.specs.declared.widening.Widening.{Widening};

    ghost Value = { List Widening };

    ghost view = { λ list. list.items.items };
}

impl Widenings {
    pub fn from_vec(items: Vec<Widening>) -> Self
        ensures { result ≡ items.items }
    {
        Widenings { items }
    }

    pub fn into_vec(self) -> Vec<Widening>
        ensures { result.items ≡ self }
    {
        self.items
    }

    pub fn as_slice(&self) -> &[Widening]
        ensures { result.now ≡ self.now }
    {
        self.items.as_slice()
    }
}
