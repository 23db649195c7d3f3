ghost use Rattle.std.specs.Prelude.{◌≡◌, IfOk, OnErr};
ghost use Rattle.row_core.specs.Encoding.{rows_bytes, RowsFit};
ghost use Rattle.row_view.specs.Encoded.{AreRows, one_list};
ghost use Rattle.row_view.specs.Views.{row_seen, Takes};

use crate::ValueRef;
use crate::reading::read_row;
use row_core::NoMemory;
use std::marker::Model;

/// The rows of checked bytes, one after another. Contracts see the rows that are left.
#[derive(Debug, Drop)]
pub struct RowReader<'a> {
    rest: &'a [u8],
    ghost spelled: { AreRows rest.now } by { one_list rest.now },
}

impl<'a> Model for RowReader<'a> {
    ghost use Rattle.std.specs.Prelude.{List};
    ghost use Rattle.row_core.specs.declared.value.Value.{Value as OneValue};

    ghost Value = { List (List OneValue) };

    ghost view = { λ r. r.spelled.0 };
}

impl<'a> RowReader<'a> {
    /// The rows that the bytes spell.
    pub fn new(rest: &'a [u8]) -> RowReader<'a>
        requires { AreRows rest.now }
        ensures spelled { rest.now ≡ rows_bytes result }
        ensures fit { RowsFit result }
    {
        RowReader { rest }
    }

    /// Reads the next row in place of what `row` has, or answers that none is left. After want of
    /// memory the same row comes next.
    pub fn read_into(&mut self, row: &mut Vec<ValueRef<'a>>) -> Result<bool, NoMemory>
        ensures ok { IfOk result (λ read. Takes read self.old (row_seen row.new.items) self.new) }
        ensures err { OnErr result (self.new ≡ self.old) }
    {
        if self.rest.is_empty() {
            return Ok(false);
        }
        match read_row(row, self.rest)? {
            Some(after) => {
                self.rest = after;
                Ok(true)
            }
            None => unreachable!(),
        }
    }
}
