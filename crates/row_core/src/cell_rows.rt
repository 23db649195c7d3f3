ghost use Rattle.std.specs.Prelude.{◌≡◌};

use crate::Rows;
use std::marker::Model;

/// The rows of some cells, one list for each cell.
#[derive(Debug, Drop)]
pub struct CellRows {
    cells: Vec<Rows>,
}

impl Model for CellRows {
    ghost use Rattle.std.specs.Prelude.{List};
    ghost use Rattle.row_core.specs.declared.value.Value.{Value as OneValue};

    ghost Value = { List (List (List OneValue)) };

    ghost view = { λ c. c.cells.items };
}

impl CellRows {
    pub fn from_vec(cells: Vec<Rows>) -> Self
        ensures { result ≡ cells.items }
    {
        CellRows { cells }
    }

    pub fn into_vec(self) -> Vec<Rows>
        ensures { result.items ≡ self }
    {
        self.cells
    }

    pub fn as_slice(&self) -> &[Rows]
        ensures { result.now ≡ self.now }
    {
        self.cells.as_slice()
    }
}
