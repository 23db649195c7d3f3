use crate::byte_set::{ByteSet, emptied};
use row_collector::Collector;
use row_core::{Bytes, NoMemory};
use row_view::{EncodedRows, ValueRef, put_row, rows_stop_once};
use std::alloc::Global;
use std::mem;

/// Rows of one width, each once, in the order in which they first came. A row is kept as its bytes.
#[derive(Drop)]
pub struct RowSet {
    alloc: Global,
    width: u32,
    // room for the bytes of a row
    bytes: Bytes,
    rows: ByteSet,
}

impl RowSet {
    ghost use Rattle.std.specs.Prelude.{◌≡◌, [], List, IfOk};
    ghost use Rattle.row_core.specs.Bags.{one_of_each};
    ghost use Rattle.bag_laws.specs.Rows.{OneRow};
    ghost use Rattle.row_set.specs.Held.{HoldsEach};

    pub fn new(alloc: Global, width: u32) -> Self
        ensures width { result.width ≡ width }
        ensures none { HoldsEach result [] }
    {
        let rows = ByteSet::new(alloc);
        RowSet {
            alloc,
            width,
            bytes: Bytes::new(alloc),
            rows,
        }
    }

    /// The rows as their bytes, each once.
    pub fn into_rows(self) -> Result<EncodedRows, NoMemory>
        requires { (rows : List OneRow) × HoldsEach self rows }
        ensures { (rows : List OneRow) → HoldsEach self rows
            → IfOk result (λ each. each ≡ one_of_each rows) }
    {
        rows_stop_once();
        let bytes = self.rows.joined()?;
        match EncodedRows::check(bytes, self.width) {
            Ok(rows) => Ok(rows),
            Err(_) => unreachable!(),
        }
    }
}

impl Collector for RowSet {
    ghost use Rattle.row_set.specs.Held.{HoldsEach};

    ghost width = { λ set. set.width };

    ghost kept = { λ set. tt };

    ghost holds = { HoldsEach };

    fn collect(&mut self, row: &[ValueRef]) -> Result<(), NoMemory> {
        let room = mem::replace(&mut self.bytes, Bytes::new(self.alloc));
        let mut bytes = emptied(room);
        put_row(&mut bytes, row)?;
        self.rows.insert(bytes.as_slice())?;
        self.bytes = bytes;
        Ok(())
    }
}
