ghost use Rattle.std.specs.Prelude.{◌≡◌, ◌≤◌, ◌∷◌, [], length, OnOk};
ghost use Rattle.csv.specs.Records.{fields_of};
ghost use Rattle.plan_model.specs.Tables.{row_of, table_rows};
ghost use Rattle.row_collector.specs.Collecting.{Collects};
ghost use Rattle.row_core.specs.Values.{width_limit};
ghost use Rattle.row_steps.specs.Chained.{chained, ops_of, StepsFit};

use crate::reading::{read_record, record_reader};
use crate::record::record_row;
use csv::ByteRecord;
use plan_model::{Kind, Op};
use row_collector::Collector;
use row_core::NoMemory;
use row_steps::push_row;
use std::alloc::{AllocError, Global};

/// Gives the collector what the steps give on the rows of a table's file. Any bytes are a table,
/// ragged ones too: no record is refused. docs/FORMATS.md says how they are read.
pub fn scan_table<C: Collector>(
    alloc: Global,
    text: &[u8],
    kinds: &[Kind],
    steps: &[&Op],
    out: &mut C,
) -> Result<(), NoMemory>
    requires width { length kinds.now ≤ width_limit }
    requires steps { StepsFit (length kinds.now) (ops_of steps.now) (C.width out.old) }
    ensures width { OnOk result (C.width out.new ≡ C.width out.old) }
    ensures kept { OnOk result (C.kept out.new ≡ C.kept out.old) }
    ensures takes { OnOk result (Collects C.holds out.old out.new
        (chained (ops_of steps.now) (table_rows kinds.now text.now))) }
{
    let mut reader = record_reader(alloc, text);
    let mut record = ByteRecord::new(alloc);
    for _ in 0..u64::MAX {
        let found = read_record(&mut reader, &mut record)?;
        if !found {
            return Ok(());
        }
        scan_record(alloc, &record, kinds, steps, out)?;
    }
    Err(AllocError)
}

// The same of one record.
fn scan_record<C: Collector>(
    alloc: Global,
    cells: &ByteRecord,
    kinds: &[Kind],
    steps: &[&Op],
    out: &mut C,
) -> Result<(), NoMemory>
    requires width { length kinds.now ≤ width_limit }
    requires steps { StepsFit (length kinds.now) (ops_of steps.now) (C.width out.old) }
    ensures width { OnOk result (C.width out.new ≡ C.width out.old) }
    ensures kept { OnOk result (C.kept out.new ≡ C.kept out.old) }
    ensures takes { OnOk result (Collects C.holds out.old out.new
        (chained (ops_of steps.now) (row_of kinds.now (fields_of cells.now) ∷ []))) }
{
    let row = record_row(alloc, cells, kinds)?;
    push_row(alloc, steps, row.as_slice(), out)
}
