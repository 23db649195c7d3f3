ghost use Rattle.std.specs.Prelude.{◌≡◌, ◌<◌, IsTrue, IsErrOf};
ghost use Rattle.estate.specs.Changes.{Stays, Leads, ShelfRose};
ghost use Rattle.part_store.specs.Answers.{StoreSteady, ReadsCell, ReadsCells, IsCellAnswer, IsCellsAnswer};

use crate::StoreError;
use estate::{Estate, PartName};
use row_core::CellRows;
use row_view::{EncodedCells, EncodedRows};
use std::alloc::Global;

/// The rows of the cells from `s0` up to, not including, `s1` of an edge of a part, each row of
/// `width` values. An edge or a cell that the part lacks has no rows.
pub fn cells<E: Estate>(
    alloc: Global,
    estate: &mut E,
    name: PartName,
    edge: u32,
    s0: u32,
    s1: u32,
    width: u32,
) -> Result<CellRows, StoreError>
    ensures adds { Leads Stays (E.world estate.old) (E.world estate.new) }
    ensures answer { IsTrue (E.world estate.old).told →
        ReadsCells name edge s0 s1 width (E.world estate.old) (E.world estate.new) result }
    ensures form { IsCellsAnswer name edge s0 s1 width result }
    ensures fault { IsErrOf result StoreError.ShelfFault →
        ShelfRose (E.world estate.old) (E.world estate.new) }
    ensures steady { StoreSteady (E.world estate.old) (E.world estate.new) result }
{
    let encoded = encoded_cells(alloc, estate, name, edge, s0, s1, width)?;
    Ok(encoded.decoded(alloc)?)
}

/// What `cells` gives, with the rows kept as their bytes.
pub fn encoded_cells<E: Estate>(
    alloc: Global,
    estate: &mut E,
    name: PartName,
    edge: u32,
    s0: u32,
    s1: u32,
    width: u32,
) -> Result<EncodedCells, StoreError>
    ensures adds { Leads Stays (E.world estate.old) (E.world estate.new) }
    ensures answer { IsTrue (E.world estate.old).told →
        ReadsCells name edge s0 s1 width (E.world estate.old) (E.world estate.new) result }
    ensures form { IsCellsAnswer name edge s0 s1 width result }
    ensures fault { IsErrOf result StoreError.ShelfFault →
        ShelfRose (E.world estate.old) (E.world estate.new) }
    ensures steady { StoreSteady (E.world estate.old) (E.world estate.new) result }
{
    let mut cells = EncodedCells::new(alloc);
    for cell in s0..s1 {
        cells.push(encoded_cell(estate, name, edge, cell, width)?)?;
    }
    Ok(cells)
}

// The rows of one cell.
fn encoded_cell<E: Estate>(
    estate: &mut E,
    name: PartName,
    edge: u32,
    cell: u32,
    width: u32,
) -> Result<EncodedRows, StoreError>
    ensures adds { Leads Stays (E.world estate.old) (E.world estate.new) }
    ensures answer { IsTrue (E.world estate.old).told →
        ReadsCell name edge cell width (E.world estate.old) (E.world estate.new) result }
    ensures form { IsCellAnswer name edge cell width result }
    ensures fault { IsErrOf result StoreError.ShelfFault →
        ShelfRose (E.world estate.old) (E.world estate.new) }
    ensures steady { StoreSteady (E.world estate.old) (E.world estate.new) result }
{
    let Some(bytes) = estate.shelf_cell(name, edge, cell)? else {
        return Err(StoreError::Gone(name));
    };
    match EncodedRows::check(bytes, width) {
        Ok(rows) => Ok(rows),
        Err(bad) => Err(StoreError::BadCell {
            name,
            edge,
            cell,
            at: bad.at,
        }),
    }
}
