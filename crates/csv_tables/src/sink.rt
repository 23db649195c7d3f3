ghost use Rattle.std.specs.Prelude.{◌≡◌, IfOk};
ghost use Rattle.plan_model.specs.Sinks.{sorted_lines};

use crate::SinkLines;
use row_core::{Bytes, NoMemory, Rows};
use std::alloc::Global;

/// The text of a sink's rows: a line for each, as docs/FORMATS.md says, in ascending order of their
/// bytes. Rows may differ in width.
pub fn sink_text(alloc: Global, rows: &Rows) -> Result<Bytes, NoMemory>
    ensures { IfOk result (λ text. text ≡ sorted_lines rows.now) }
{
    let lines = SinkLines::new(alloc).with_rows(rows)?;
    lines.into_sorted_text(alloc)
}
