ghost use Rattle.std.specs.Prelude.{◌≡◌, OnOk};
ghost use Rattle.row_collector.specs.Collecting.{Collects};
ghost use Rattle.row_steps.specs.Chained.{chained, ops_of, AreTaken};

use crate::steps::push_row;
use plan_model::Op;
use row_collector::Collector;
use row_core::NoMemory;
use row_view::EncodedRows;
use std::alloc::Global;

/// Gives the collector what the steps give on rows that are kept as bytes. No row is decoded.
pub fn push_rows<C: Collector>(
    alloc: Global,
    steps: &[&Op],
    rows: &EncodedRows,
    out: &mut C,
) -> Result<(), NoMemory>
    requires { AreTaken (ops_of steps.now) rows.now (C.width out.old) }
    ensures width { C.width out.new ≡ C.width out.old }
    ensures kept { C.kept out.new ≡ C.kept out.old }
    ensures takes { OnOk result (Collects C.holds out.old out.new
        (chained (ops_of steps.now) rows.now)) }
{
    let mut reader = rows.reader();
    let mut row = Vec::new(alloc);
    while reader.read_into(&mut row)? {
        push_row(alloc, steps, row.as_slice(), out)?;
    }
    Ok(())
}
