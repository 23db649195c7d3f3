ghost use Rattle.std.specs.Prelude.{◌≡◌, IfOk};

use crate::Files;
use row_core::{Bytes, NoMemory};
use std::alloc::Global;

/// A table's name and the contents of its files.
#[derive(Debug, Drop)]
pub struct Table {
    pub table: Bytes,
    pub files: Files,
}

impl Table {
    pub fn copy(&self, alloc: Global) -> Result<Table, NoMemory>
        ensures { IfOk result (λ made. made ≡ self.now) }
    {
        Ok(Table {
            table: Bytes::from_slice(alloc, self.table.as_slice())?,
            files: self.files.copy(alloc)?,
        })
    }
}
