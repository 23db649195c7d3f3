ghost use Rattle.std.specs.Prelude.{◌≡◌, ◌++◌, IfOk, OnOk};
ghost use Rattle.hash_join.specs.Rules.{pair};
ghost use Rattle.plan_model.specs.Joins.{nulls};
ghost use Rattle.row_view.specs.Views.{seen, row_seen};

use plan_model::Side;
use row_core::NoMemory;
use row_view::ValueRef;
use std::alloc::Global;

/// A row of this side and one of the other as one, the left one first.
pub fn paired<'b>(
    alloc: Global,
    side: Side,
    row: &'b [ValueRef],
    other: &'b [ValueRef],
) -> Result<Vec<ValueRef<'b>>, NoMemory>
    ensures { IfOk result
        (λ made. row_seen made.items ≡ pair side (row_seen row.now) (row_seen other.now)) }
{
    match side {
        Side::Left => concatenated(alloc, row, other),
        Side::Right => concatenated(alloc, other, row),
    }
}

/// So many Nulls.
pub fn null_row<'b>(alloc: Global, width: u32) -> Result<Vec<ValueRef<'b>>, NoMemory>
    ensures { IfOk result (λ made. row_seen made.items ≡ nulls width) }
{
    let mut made = Vec::new(alloc);
    for _place in 0..width {
        made.push(ValueRef::Null)?;
    }
    Ok(made)
}

fn concatenated<'b>(
    alloc: Global,
    first: &'b [ValueRef],
    second: &'b [ValueRef],
) -> Result<Vec<ValueRef<'b>>, NoMemory>
    ensures { IfOk result
        (λ made. row_seen made.items ≡ row_seen first.now ++ row_seen second.now) }
{
    let mut made = Vec::with_capacity(alloc, first.len().saturating_add(second.len()))?;
    push_values(&mut made, first)?;
    push_values(&mut made, second)?;
    Ok(made)
}

fn push_values<'b>(made: &mut Vec<ValueRef<'b>>, values: &'b [ValueRef]) -> Result<(), NoMemory>
    ensures { OnOk result
        (row_seen made.new.items ≡ row_seen made.old.items ++ row_seen values.now) }
{
    for value in values {
        made.push(again(value))?;
    }
    Ok(())
}

// A value for a shorter time.
fn again<'b>(value: &'b ValueRef) -> ValueRef<'b>
    ensures { seen result ≡ seen value.now }
{
    match value {
        ValueRef::Null => ValueRef::Null,
        ValueRef::Int(number) => ValueRef::Int(*number),
        ValueRef::Text(text) => ValueRef::Text(*text),
    }
}
