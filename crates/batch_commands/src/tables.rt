ghost use Rattle.std.specs.Prelude.{◌≡◌, length, map, IsTrue, IfOk};
ghost use Rattle.plan_model.specs.Plans.{committed_text};
ghost use Rattle.plan_model.specs.TableNames.{tables_of};
ghost use Rattle.batch_commands.specs.Tables.{AreListed, Reads, listed, with_files};

use crate::listed_table::ListedTable;
use estate::{InputError, Inputs};
use plan_eval::{Files, TableFiles, TableRows, answer};
use plan_model::{GoodPlan, tables_of};
use row_core::Bytes;
use std::alloc::Global;

/// The tables that a plan reads, with the numbers of their files.
pub fn list_tables<I: Inputs>(
    alloc: Global,
    inputs: &mut I,
    plan: &GoodPlan,
) -> Result<Vec<ListedTable>, InputError>
    ensures reads { Reads (I.contents inputs.old) (I.contents inputs.new) result }
    ensures tables { IfOk result (λ tables. IsTrue (I.contents inputs.old).told →
        tables.items ≡ listed (I.contents inputs.old).files (tables_of plan.now)) }
{
    let names = tables_of(alloc, plan.plan())?;
    list_each(alloc, inputs, names.into_vec())
}

/// The text that a plan commits over its tables.
pub fn text_over<I: Inputs>(
    alloc: Global,
    inputs: &mut I,
    plan: &GoodPlan,
    tables: Vec<ListedTable>,
) -> Result<Bytes, InputError>
    requires { IsTrue (I.contents inputs.old).told →
        tables.items ≡ listed (I.contents inputs.old).files (tables_of plan.now) }
    ensures reads { Reads (I.contents inputs.old) (I.contents inputs.new) result }
    ensures text { IfOk result (λ text. IsTrue (I.contents inputs.old).told →
        text ≡ committed_text (I.contents inputs.old).files plan.now) }
{
    let tables = read_tables(alloc, inputs, tables)?;
    Ok(answer(alloc, plan, &tables)?)
}

fn list_each<I: Inputs>(
    alloc: Global,
    inputs: &mut I,
    names: Vec<Bytes>,
) -> Result<Vec<ListedTable>, InputError>
    ensures reads { Reads (I.contents inputs.old) (I.contents inputs.new) result }
    ensures tables { IfOk result (λ tables. IsTrue (I.contents inputs.old).told →
        tables.items ≡ listed (I.contents inputs.old).files names.items) }
{
    let mut tables = Vec::with_capacity(alloc, names.len())?;
    for table in names {
        let files = file_count(inputs, &table)?;
        tables.push(ListedTable { table, files })?;
    }
    Ok(tables)
}

// How many files a table has. More than 2^32 - 1 are not numbered, which is want of memory.
fn file_count<I: Inputs>(inputs: &mut I, table: &Bytes) -> Result<u32, InputError>
    ensures reads { Reads (I.contents inputs.old) (I.contents inputs.new) result }
    ensures count { IfOk result (λ files. IsTrue (I.contents inputs.old).told →
        length ((I.contents inputs.old).files table.now) ≡ files) }
{
    let sizes = inputs.file_sizes(table)?;
    match u32::try_from(sizes.as_slice().len()) {
        Ok(files) => Ok(files),
        Err(_) => Err(InputError::NoMemory),
    }
}

fn read_tables<I: Inputs>(
    alloc: Global,
    inputs: &mut I,
    tables: Vec<ListedTable>,
) -> Result<TableRows, InputError>
    requires { IsTrue (I.contents inputs.old).told →
        AreListed (I.contents inputs.old).files tables.items }
    ensures reads { Reads (I.contents inputs.old) (I.contents inputs.new) result }
    ensures tables { IfOk result (λ rows. IsTrue (I.contents inputs.old).told →
        rows ≡ with_files (I.contents inputs.old).files (map (λ table. table.table) tables.items)) }
{
    let mut rows = Vec::with_capacity(alloc, tables.len())?;
    for table in tables {
        rows.push(read_table(alloc, inputs, table)?)?;
    }
    Ok(TableRows::from_vec(rows))
}

fn read_table<I: Inputs>(
    alloc: Global,
    inputs: &mut I,
    table: ListedTable,
) -> Result<TableFiles, InputError>
    requires { IsTrue (I.contents inputs.old).told →
        table.files ≡ length ((I.contents inputs.old).files table.table) }
    ensures reads { Reads (I.contents inputs.old) (I.contents inputs.new) result }
    ensures files { IfOk result (λ read. IsTrue (I.contents inputs.old).told →
        read ≡ record { table = table.table; rows = (I.contents inputs.old).files table.table }) }
{
    let rows = read_files(alloc, inputs, &table.table, table.files)?;
    Ok(TableFiles {
        table: table.table,
        rows,
    })
}

fn read_files<I: Inputs>(
    alloc: Global,
    inputs: &mut I,
    table: &Bytes,
    files: u32,
) -> Result<Files, InputError>
    requires { IsTrue (I.contents inputs.old).told →
        files ≡ length ((I.contents inputs.old).files table.now) }
    ensures reads { Reads (I.contents inputs.old) (I.contents inputs.new) result }
    ensures files { IfOk result (λ read. IsTrue (I.contents inputs.old).told →
        read ≡ (I.contents inputs.old).files table.now) }
{
    let mut texts = Vec::new(alloc);
    for file in 0..files {
        texts.push(inputs.read_file(table, file)?)?;
    }
    Ok(Files::from_vec(texts))
}
