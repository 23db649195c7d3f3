ghost use Rattle.std.specs.Prelude.{◌≡◌};

use crate::Column;
use std::marker::Model;

/// The columns of a source, in the order of its table's cells.
#[derive(Debug, Drop)]
pub struct Schema {
    items: Vec<Column>,
}

impl Model for Schema {
    ghost use Rattle.std.specs.Prelude.{List};
    ghost use Rattle.plan_model.specs.declared.column.Column.{Column};

    ghost Value = { List Column };

    ghost view = { λ list. list.items.items };
}

impl Schema {
    pub fn from_vec(items: Vec<Column>) -> Self
        ensures { result ≡ items.items }
    {
        Schema { items }
    }

    pub fn into_vec(self) -> Vec<Column>
        ensures { result.items ≡ self }
    {
        self.items
    }

    pub fn as_slice(&self) -> &[Column]
        ensures { result.now ≡ self.now }
    {
        self.items.as_slice()
    }
}
