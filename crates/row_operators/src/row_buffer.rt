use row_collector::Collector;
use row_core::{Bytes, NoMemory};
use row_view::{EncodedRows, ValueRef, put_row, rows_stop_once};
use std::alloc::Global;

/// Rows of one width as their bytes, in the order in which they came.
#[derive(Drop)]
pub struct RowBuffer {
    width: u32,
    bytes: Bytes,
}

impl RowBuffer {
    ghost use Rattle.std.specs.Prelude.{◌≡◌, [], List};
    ghost use Rattle.std.specs.List.{AllByRecursion};
    ghost use Rattle.bag_laws.specs.Rows.{OneRow};
    ghost use Rattle.row_operators.specs.Held.{HoldsBytes};
    ghost use Rattle.row_view.specs.Encoded.{RowOf};

    pub fn new(alloc: Global, width: u32) -> Self
        ensures width { result.width ≡ width }
        ensures none { HoldsBytes result [] }
    {
        RowBuffer {
            width,
            bytes: Bytes::new(alloc),
        }
    }

    /// The rows.
    pub fn into_rows(self) -> EncodedRows
        requires { (rows : List OneRow) × HoldsBytes self rows }
        ensures rows { (rows : List OneRow) → HoldsBytes self rows → result ≡ rows }
        ensures wide { AllByRecursion (RowOf self.width) result }
    {
        rows_stop_once();
        match EncodedRows::check(self.bytes, self.width) {
            Ok(rows) => rows,
            Err(_) => unreachable!(),
        }
    }
}

impl Collector for RowBuffer {
    ghost use Rattle.row_operators.specs.Held.{HoldsBytes};

    ghost width = { λ buffer. buffer.width };

    ghost kept = { λ buffer. tt };

    ghost holds = { HoldsBytes };

    fn collect(&mut self, row: &[ValueRef]) -> Result<(), NoMemory> {
        put_row(&mut self.bytes, row)
    }
}
