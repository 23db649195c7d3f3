ghost use Rattle.std.specs.Prelude.{◌≡◌};

use crate::Group;
use std::marker::Model;

/// Groups of the items of a list, in order.
#[derive(Debug, Drop)]
pub struct Groups {
    groups: Vec<Group>,
}

impl Model for Groups {
    ghost use Rattle.std.specs.Prelude.{List};
    ghost use Rattle.volume_split.specs.declared.group.Group.{Group};

    ghost Value = { List Group };

    ghost view = { λ list. list.groups.items };
}

impl Groups {
    pub fn from_vec(groups: Vec<Group>) -> Self
        ensures { result ≡ groups.items }
    {
        Groups { groups }
    }

    pub fn into_vec(self) -> Vec<Group>
        ensures { result.items ≡ self }
    {
        self.groups
    }

    pub fn as_slice(&self) -> &[Group]
        ensures { result.now ≡ self.now }
    {
        self.groups.as_slice()
    }
}
