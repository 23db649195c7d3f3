ghost use Rattle.std.specs.Prelude.{◌≡◌, ◌++◌, IfOk, OnOk, map};
ghost use Rattle.std.specs.List.{flat_map};
ghost use Rattle.plan_eval.specs.Tables.{files_of};
ghost use Rattle.plan_model.specs.Tables.{table_rows};

use crate::TableRows;
use crate::table_rows::files_in;
use csv_tables::read_table;
use plan_model::{Column, Kind, Kinds};
use row_core::{Bytes, NoMemory, Row, Rows};
use std::alloc::Global;

/// The rows of a table, those of one file after the other.
pub fn source_rows(
    alloc: Global,
    tables: &TableRows,
    table: &Bytes,
    columns: &[Column],
) -> Result<Rows, NoMemory>
    ensures { IfOk result (λ rows. rows ≡ flat_map (table_rows (map
        (λ column. column.kind) columns.now)) (files_of tables.now table.now)) }
{
    let kinds = Kinds::from_vec(kinds_of(alloc, columns)?);
    match files_in(tables.as_slice(), table) {
        Some(files) => files_rows(alloc, &kinds, files.as_slice()),
        None => Ok(Rows::new(alloc)),
    }
}

fn files_rows(alloc: Global, kinds: &Kinds, files: &[Bytes]) -> Result<Rows, NoMemory>
    ensures { IfOk result (λ rows. rows ≡ flat_map (table_rows kinds.now) files.now) }
{
    let mut rows: Vec<Row> = Vec::new(alloc);
    for file in files {
        let more = read_table(alloc, file, kinds)?;
        rows.append(&mut more.into_vec())?;
    }
    Ok(Rows::from_vec(rows))
}

fn kinds_of(alloc: Global, columns: &[Column]) -> Result<Vec<Kind>, NoMemory>
    ensures { IfOk result (λ kinds. kinds.items ≡ map (λ column. column.kind) columns.now) }
{
    columns.iter().map(|column| column.kind).collect(alloc)
}
