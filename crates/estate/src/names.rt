ghost use Rattle.std.specs.Prelude.{◌≡◌};

use crate::PartName;
use std::marker::Model;

/// A list of part names.
#[derive(Debug, Drop)]
pub struct Names {
    items: Vec<PartName>,
}

impl Model for Names {
    ghost use Rattle.std.specs.Prelude.{List};
    ghost use Rattle.estate.specs.declared.part_name.PartName.{PartName};

    ghost Value = { List PartName };

    ghost view = { λ list. list.items.items };
}

impl Names {
    pub fn from_vec(items: Vec<PartName>) -> Self
        ensures { result ≡ items.items }
    {
        Names { items }
    }

    pub fn into_vec(self) -> Vec<PartName>
        ensures { result.items ≡ self }
    {
        self.items
    }

    pub fn as_slice(&self) -> &[PartName]
        ensures { result.now ≡ self.now }
    {
        self.items.as_slice()
    }
}
