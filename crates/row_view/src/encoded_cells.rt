ghost use Rattle.std.specs.Prelude.{◌≡◌, [], ◌∷◌, ◌++◌, IfOk, OnOk, OnErr};

use crate::EncodedRows;
use row_core::{CellRows, NoMemory};
use std::alloc::Global;
use std::marker::Model;

/// The checked rows of some cells, one list for each cell.
#[derive(Debug, Drop)]
pub struct EncodedCells {
    cells: Vec<EncodedRows>,
}

impl Model for EncodedCells {
    ghost use Rattle.std.specs.Prelude.{List};
    ghost use Rattle.row_core.specs.declared.value.Value.{Value as OneValue};

    ghost Value = { List (List (List OneValue)) };

    ghost view = { λ c. c.cells.items };
}

impl EncodedCells {
    pub fn new(alloc: Global) -> Self
        ensures { result ≡ [] }
    {
        EncodedCells {
            cells: Vec::new(alloc),
        }
    }

    pub fn into_vec(self) -> Vec<EncodedRows>
        ensures { result.items ≡ self }
    {
        self.cells
    }

    pub fn as_slice(&self) -> &[EncodedRows]
        ensures { result.now ≡ self.now }
    {
        self.cells.as_slice()
    }

    pub fn push(&mut self, rows: EncodedRows) -> Result<(), NoMemory>
        ensures ok { OnOk result (self.new ≡ self.old ++ rows ∷ []) }
        ensures err { OnErr result (self.new ≡ self.old) }
    {
        self.cells.push(rows)?;
        Ok(())
    }

    /// A copy of these cells with values of their own.
    pub fn decoded(&self, alloc: Global) -> Result<CellRows, NoMemory>
        ensures { IfOk result (λ cells. cells ≡ self.now) }
    {
        decode_each(alloc, self.cells.as_slice())
    }
}

fn decode_each(alloc: Global, cells: &[EncodedRows]) -> Result<CellRows, NoMemory>
    ensures { IfOk result (λ made. made ≡ cells.now) }
{
    let mut made = Vec::with_capacity(alloc, cells.len())?;
    for rows in cells {
        made.push(rows.decoded(alloc)?)?;
    }
    Ok(CellRows::from_vec(made))
}
