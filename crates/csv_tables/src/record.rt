ghost use Rattle.std.specs.Prelude.{◌≡◌, IfOk};
ghost use Rattle.csv.specs.Records.{field_at, fields_of};
ghost use Rattle.csv_tables.specs.Reading.{cell_or_null};
ghost use Rattle.plan_model.specs.Tables.{row_of};
ghost use Rattle.row_view.specs.Views.{seen, row_seen};

use crate::cell::read_cell;
use csv::ByteRecord;
use plan_model::Kind;
use row_core::NoMemory;
use row_view::ValueRef;
use std::alloc::Global;

/// A record as a row that is seen where it stands.
pub fn record_row<'a>(
    alloc: Global,
    cells: &'a ByteRecord,
    kinds: &[Kind],
) -> Result<Vec<ValueRef<'a>>, NoMemory>
    ensures { IfOk result (λ row. row_seen row.items ≡ row_of kinds.now (fields_of cells.now)) }
{
    let mut row = Vec::with_capacity(alloc, kinds.len())?;
    for (place, kind) in kinds.iter().enumerate() {
        row.push(read_field(cells, place, *kind))?;
    }
    Ok(row)
}

/// The value of a record's cell, or Null where the record ends before it.
pub fn read_field<'a>(cells: &'a ByteRecord, place: usize, kind: Kind) -> ValueRef<'a>
    ensures { seen result ≡ cell_or_null kind (field_at (fields_of cells.now) place) }
{
    match cells.get(place) {
        Some(cell) => read_cell(kind, cell),
        None => ValueRef::Null,
    }
}
