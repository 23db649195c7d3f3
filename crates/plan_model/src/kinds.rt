ghost use Rattle.std.specs.Prelude.{◌≡◌};

use crate::Kind;
use std::marker::Model;

/// The kinds of a table's columns, in their order.
#[derive(Debug, Drop)]
pub struct Kinds {
    items: Vec<Kind>,
}

impl Model for Kinds {
    ghost use Rattle.std.specs.Prelude.{List};
    ghost use Rattle.plan_model.specs.declared.kind.Kind.{Kind};

    ghost Value = { List Kind };

    ghost view = { λ list. list.items.items };
}

impl Kinds {
    pub fn from_vec(items: Vec<Kind>) -> Self
        ensures { result ≡ items.items }
    {
        Kinds { items }
    }

    pub fn into_vec(self) -> Vec<Kind>
        ensures { result.items ≡ self }
    {
        self.items
    }

    pub fn as_slice(&self) -> &[Kind]
        ensures { result.now ≡ self.now }
    {
        self.items.as_slice()
    }
}
