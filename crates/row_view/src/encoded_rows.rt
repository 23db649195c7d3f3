ghost use Rattle.std.specs.Prelude.{◌≡◌, IfOk, MatchResult};
ghost use Rattle.row_core.specs.Encoding.{rows_bytes};
ghost use Rattle.row_view.specs.Encoded.{AreRows, one_list, Spells, StopsAtRow};

use crate::reading::check_rows;
use crate::{BadRow, RowReader};
use row_core::{Bytes, NoMemory, RowError, Rows, decode_rows};
use std::alloc::{AllocError, Global};
use std::marker::Model;

/// Rows that are kept as their bytes, which were checked once.
#[derive(Debug, Drop)]
pub struct EncodedRows {
    bytes: Bytes,
    ghost spelled: { AreRows bytes } by { one_list bytes },
}

impl Model for EncodedRows {
    ghost use Rattle.std.specs.Prelude.{List};
    ghost use Rattle.row_core.specs.declared.value.Value.{Value as OneValue};

    ghost Value = { List (List OneValue) };

    ghost view = { λ e. e.spelled.0 };
}

impl EncodedRows {
    /// The rows of this width that the bytes are, or where the first of them is missing. Takes no
    /// memory.
    pub fn check(bytes: Bytes, width: u32) -> Result<EncodedRows, BadRow>
        ensures { MatchResult result (λ rows. Spells width bytes rows)
            (λ bad. StopsAtRow width bytes bad.at) }
    {
        match check_rows(bytes.as_slice(), width) {
            None => Ok(EncodedRows { bytes }),
            Some(at) => Err(BadRow { at }),
        }
    }

    pub fn as_bytes(&self) -> &[u8]
        ensures { result.now ≡ rows_bytes self.now }
    {
        self.bytes.as_slice()
    }

    pub fn into_bytes(self) -> Bytes
        ensures { result ≡ rows_bytes self }
    {
        self.bytes
    }

    /// These rows, to be read one after another.
    pub fn reader(&self) -> RowReader<'_>
        ensures { result ≡ self.now }
    {
        RowReader::new(self.bytes.as_slice())
    }

    /// A copy of these rows with values of their own.
    pub fn decoded(&self, alloc: Global) -> Result<Rows, NoMemory>
        ensures { IfOk result (λ rows. rows ≡ self.now) }
    {
        match decode_rows(alloc, &self.bytes) {
            Ok(rows) => Ok(rows),
            Err(RowError::NoMemory) => Err(AllocError),
            Err(RowError::Bad { .. }) => unreachable!(),
        }
    }
}
