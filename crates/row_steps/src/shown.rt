ghost use Rattle.std.specs.Prelude.{◌≡◌, get_or, IfOk};
ghost use Rattle.std.specs.Option.{option_map};
ghost use Rattle.row_core.specs.Values.{text_of};
ghost use Rattle.row_core.specs.declared.value.Value.TheVariants.{Null as null_value};
ghost use Rattle.row_steps.specs.Shown.{shown_bytes};
ghost use Rattle.row_view.specs.Views.{seen, row_seen};

use row_core::{Bytes, NoMemory};
use row_view::ValueRef;
use std::alloc::Global;

/// The text that a value shows: where it stands, or made of a number.
#[derive(Drop)]
pub enum Shown<'a> {
    Seen(&'a [u8]),
    Made(Bytes),
}

impl<'a> Shown<'a> {
    pub fn as_slice(&self) -> &[u8]
        ensures { result.now ≡ shown_bytes self.now }
    {
        match self {
            Shown::Seen(text) => *text,
            Shown::Made(text) => text.as_slice(),
        }
    }
}

/// The text that a value shows, if it is not Null.
pub fn show<'a>(alloc: Global, value: ValueRef<'a>) -> Result<Option<Shown<'a>>, NoMemory>
    ensures { IfOk result (λ text. option_map shown_bytes text ≡ text_of (seen value.entry)) }
{
    match value {
        ValueRef::Null => Ok(None),
        ValueRef::Int(number) => {
            let shown = number.to_string(alloc)?;
            Ok(Some(Shown::Made(Bytes::from_slice(alloc, shown.as_bytes())?)))
        }
        ValueRef::Text(text) => Ok(Some(Shown::Seen(text))),
    }
}

/// The value in a column, Null where the row has no such column.
pub fn value_in<'a>(row: &[ValueRef<'a>], column: u32) -> ValueRef<'a>
    ensures { seen result ≡ get_or (row_seen row.now) column null_value }
{
    match row.get(column as usize) {
        Some(value) => *value,
        None => ValueRef::Null,
    }
}
