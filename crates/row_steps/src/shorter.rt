ghost use Rattle.std.specs.Prelude.{◌≡◌, IfOk};
ghost use Rattle.row_view.specs.Views.{seen, row_seen};

use row_core::NoMemory;
use row_view::ValueRef;
use std::alloc::Global;

/// The same values, for a shorter time.
pub fn copies<'b>(alloc: Global, row: &'b [ValueRef]) -> Result<Vec<ValueRef<'b>>, NoMemory>
    ensures { IfOk result (λ copy. row_seen copy.items ≡ row_seen row.now) }
{
    let mut copy = Vec::with_capacity(alloc, row.len())?;
    for value in row {
        copy.push(again(value))?;
    }
    Ok(copy)
}

// A value for a shorter time.
fn again<'b>(value: &'b ValueRef) -> ValueRef<'b>
    ensures { seen result ≡ seen value.now }
{
    match value {
        ValueRef::Null => ValueRef::Null,
        ValueRef::Int(number) => ValueRef::Int(*number),
        ValueRef::Text(text) => ValueRef::Text(*text),
    }
}
