ghost use Rattle.std.specs.Prelude.{◌≡◌};
ghost use Rattle.std.specs.List.{list_all};
ghost use Rattle.plan_model.specs.Checks.{agg_within};

use crate::Agg;
use std::marker::Model;

/// The aggregates of an aggregate node, in the order of their columns.
#[derive(Debug, Drop)]
pub struct Aggs {
    items: Vec<Agg>,
}

impl Model for Aggs {
    ghost use Rattle.std.specs.Prelude.{List};
    ghost use Rattle.plan_model.specs.declared.agg.Agg.{Agg};

    ghost Value = { List Agg };

    ghost view = { λ list. list.items.items };
}

impl Aggs {
    pub fn from_vec(items: Vec<Agg>) -> Self
        ensures { result ≡ items.items }
    {
        Aggs { items }
    }

    pub fn into_vec(self) -> Vec<Agg>
        ensures { result.items ≡ self }
    {
        self.items
    }

    pub fn as_slice(&self) -> &[Agg]
        ensures { result.now ≡ self.now }
    {
        self.items.as_slice()
    }

    /// Whether the columns that they look at are below the width of a row.
    pub fn fit(&self, width: u32) -> bool
        ensures { result ≡ list_all (agg_within width) self.now }
    {
        self.items.iter().all(|agg| agg.fits(width))
    }
}
