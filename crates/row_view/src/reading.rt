ghost use Rattle.std.specs.Prelude.{◌≡◌, ◌∷◌, ℕ, List, MatchOption, IfOk};
ghost use Rattle.row_core.specs.declared.value.Value.{Value as OneValue};
ghost use Rattle.row_core.specs.Encoding.{value_bytes, values_bytes, row_bytes, ValueFits, RowFits};
ghost use Rattle.row_core.specs.Decoding.{Begins, NoneBegins, AreValues};
ghost use Rattle.row_view.specs.Encoded.{RowOf, Spells, StopsAtRow};
ghost use Rattle.row_view.specs.Views.{seen, row_seen};

use crate::ValueRef;
use row_core::{NoMemory, TEXT_LIMIT, read_u16, read_u32, read_u64};

/// The greatest number of values of a row that has an encoding.
const WIDTH_LIMIT: u16 = 256;

/// Where the first row of this width is missing, if the bytes are not such rows. Takes no memory.
pub fn check_rows(bytes: &[u8], width: u32) -> Option<u64>
    ensures { MatchOption result
        ((rows : List (List OneValue)) × Spells width bytes.now rows)
        (λ at. StopsAtRow width bytes.now at) }
{
    let mut rest = bytes;
    while !rest.is_empty() {
        match skip_row(rest, width) {
            Some(after) => rest = after,
            None => return Some((bytes.len() - rest.len()) as u64),
        }
    }
    None
}

/// Bytes are no rows of a width exactly where such rows stop, and they stop at one place.
pub fn rows_stop_once()
    ensures place { (width : ℕ) (bytes : List ℕ) (a b : ℕ) → StopsAtRow width bytes a
        → StopsAtRow width bytes b → a ≡ b }
    ensures rows { (width : ℕ) (bytes : List ℕ) (at : ℕ) (rows : List (List OneValue))
        → StopsAtRow width bytes at → Spells width bytes rows → ⊥ }
{}

// What follows the row of this width that the bytes begin with.
fn skip_row(bytes: &[u8], width: u32) -> Option<&[u8]>
    ensures { MatchOption result (NoneBegins row_bytes (RowOf width) bytes.now)
        (λ rest. (row : List OneValue) × Begins row_bytes (RowOf width) bytes.now row rest.now) }
{
    let (count, rest) = read_u16(bytes)?;
    if u32::from(count) != width || count > WIDTH_LIMIT {
        return None;
    }
    skip_values(count, rest)
}

// What follows this many values.
fn skip_values(count: u16, bytes: &[u8]) -> Option<&[u8]>
    ensures { MatchOption result (NoneBegins values_bytes (AreValues count) bytes.now)
        (λ rest. (values : List OneValue)
        × Begins values_bytes (AreValues count) bytes.now values rest.now) }
{
    let mut rest = bytes;
    for _ in 0..count {
        let Some((_, after)) = read_value(rest) else {
            return None;
        };
        rest = after;
    }
    Some(rest)
}

// Reads the row that the bytes begin with, and gives the bytes after it.
pub fn read_row<'a>(
    row: &mut Vec<ValueRef<'a>>,
    bytes: &'a [u8],
) -> Result<Option<&'a [u8]>, NoMemory>
    ensures { IfOk result (λ read. MatchOption read (NoneBegins row_bytes RowFits bytes.now)
        (λ rest. Begins row_bytes RowFits bytes.now (row_seen row.new.items) rest.now)) }
{
    let Some((width, rest)) = read_u16(bytes) else {
        return Ok(None);
    };
    if width > WIDTH_LIMIT {
        return Ok(None);
    }
    read_values(row, width, rest)
}

// Reads this many values that the bytes begin with. Room is taken only for values that are there.
fn read_values<'a>(
    row: &mut Vec<ValueRef<'a>>,
    count: u16,
    bytes: &'a [u8],
) -> Result<Option<&'a [u8]>, NoMemory>
    ensures { IfOk result
        (λ read. MatchOption read (NoneBegins values_bytes (AreValues count) bytes.now)
        (λ rest. Begins values_bytes (AreValues count) bytes.now (row_seen row.new.items)
        rest.now)) }
{
    row.clear();
    let mut rest = bytes;
    for _ in 0..count {
        let Some((value, after)) = read_value(rest) else {
            return Ok(None);
        };
        row.push(value)?;
        rest = after;
    }
    Ok(Some(rest))
}

fn read_value(bytes: &[u8]) -> Option<(ValueRef<'_>, &[u8])>
    ensures { MatchOption result (NoneBegins value_bytes ValueFits bytes.now)
        (λ x. Begins value_bytes ValueFits bytes.now (seen x.0) x.1.now) }
{
    match bytes {
        [0, rest @ ..] => Some((ValueRef::Null, rest)),
        [1, rest @ ..] => read_int(rest),
        [2, rest @ ..] => read_text(rest),
        _ => None,
    }
}

// The number behind its tag.
fn read_int(bytes: &[u8]) -> Option<(ValueRef<'_>, &[u8])>
    ensures { MatchOption result (NoneBegins value_bytes ValueFits (1 ∷ bytes.now))
        (λ x. Begins value_bytes ValueFits (1 ∷ bytes.now) (seen x.0) x.1.now) }
{
    let (number, rest) = read_u64(bytes)?;
    Some((ValueRef::Int(number.cast_signed()), rest))
}

// The text behind its tag.
fn read_text(bytes: &[u8]) -> Option<(ValueRef<'_>, &[u8])>
    ensures { MatchOption result (NoneBegins value_bytes ValueFits (2 ∷ bytes.now))
        (λ x. Begins value_bytes ValueFits (2 ∷ bytes.now) (seen x.0) x.1.now) }
{
    let (len, rest) = read_u32(bytes)?;
    let len = len as usize;
    if len > TEXT_LIMIT || rest.len() < len {
        return None;
    }
    let (text, rest) = rest.split_at(len);
    Some((ValueRef::Text(text), rest))
}
