ghost use Rattle.std.specs.Prelude.{◌≡◌};

use crate::Grid;
use std::marker::Model;

/// The grids of several inputs, in order.
#[derive(Debug, Drop)]
pub struct Grids {
    grids: Vec<Grid>,
}

impl Model for Grids {
    ghost use Rattle.std.specs.Prelude.{List};
    ghost use Rattle.rect_cover.specs.declared.grid.Grid.{Grid};

    ghost Value = { List Grid };

    ghost view = { λ list. list.grids.items };
}

impl Grids {
    pub fn from_vec(grids: Vec<Grid>) -> Self
        ensures { result ≡ grids.items }
    {
        Grids { grids }
    }

    pub fn into_vec(self) -> Vec<Grid>
        ensures { result.items ≡ self }
    {
        self.grids
    }

    pub fn as_slice(&self) -> &[Grid]
        ensures { result.now ≡ self.now }
    {
        self.grids.as_slice()
    }
}
