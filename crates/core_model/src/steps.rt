ghost use Rattle.std.specs.Prelude.{◌≡◌};

use crate::Step;
use std::marker::Model;

/// Steps of the master, in order.
#[derive(Debug, Drop)]
pub struct Steps {
    items: Vec<Step>,
}

impl Model for Steps {
    ghost use Rattle.std.specs.Prelude.{List, ℕ};
    ghost use Rattle.core_model.specs.declared.step.Step.{Step};

    ghost Value = { List Step };

    ghost view = { λ list. list.items.items };
}

impl Steps {
    pub fn from_vec(items: Vec<Step>) -> Self
        ensures { result ≡ items.items }
    {
        Steps { items }
    }

    pub fn into_vec(self) -> Vec<Step>
        ensures { result.items ≡ self }
    {
        self.items
    }

    pub fn as_slice(&self) -> &[Step]
        ensures { result.now ≡ self.now }
    {
        self.items.as_slice()
    }
}
