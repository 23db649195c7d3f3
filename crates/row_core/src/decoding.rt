ghost use Rattle.std.specs.Prelude.{◌≡◌, ◌<◌, ◌^◌, ℕ, List, [], ◌∷◌, ◌++◌, MatchOption, IfOk, IfErr};
ghost use Rattle.std.specs.Int.{w16, w32, w64, to_be_bytes};
ghost use Rattle.row_core.specs.declared.value.Value.{Value as OneValue};
ghost use Rattle.row_core.specs.Encoding.{value_bytes, values_bytes, row_bytes, rows_bytes, ValueFits, RowFits, RowsFit, StopsAt};
ghost use Rattle.row_core.specs.Decoding.{Begins, NoneBegins, AreValues, IsCause, GivesRows, GivesBad};

use crate::value::TEXT_LIMIT;
use crate::{Bytes, NoMemory, Row, RowError, Rows, Value};
use std::alloc::Global;

/// The greatest number of values of a row that has an encoding.
const WIDTH_LIMIT: u16 = 256;

/// The rows that the bytes spell, all of the bytes. docs/FORMATS.md has the format.
pub fn decode_rows(alloc: Global, bytes: &Bytes) -> Result<Rows, RowError>
    // What is read is spelled so.
    ensures found { IfOk result (λ rows. RowsFit rows × (bytes.now ≡ rows_bytes rows)) }
    // What is spelled so is read, unless memory runs out.
    ensures only { (rows : List (List OneValue)) → RowsFit rows → bytes.now ≡ rows_bytes rows
        → GivesRows result rows }
    ensures alone { (row : List OneValue) → RowFits row → bytes.now ≡ row_bytes row
        → GivesRows result (row ∷ []) }
    // A refusal is at the first row that isn't one, and such a row is refused.
    ensures cause { IfErr result (λ error. IsCause bytes.now error) }
    ensures stops { (at : ℕ) → StopsAt bytes.now at → GivesBad result at }
{
    read_rows(alloc, bytes.as_slice())
}

/// Bytes spell one list of rows at most, and no row's spelling begins another's.
pub fn one_spelling()
    ensures rows { (a b : List (List OneValue)) → RowsFit a → RowsFit b
        → rows_bytes a ≡ rows_bytes b → a ≡ b }
    ensures row { (a b : List OneValue) (x y : List ℕ) → RowFits a → RowFits b
        → row_bytes a ++ x ≡ row_bytes b ++ y → (a ≡ b) × (x ≡ y) }
{}

fn read_rows(alloc: Global, bytes: &[u8]) -> Result<Rows, RowError>
    ensures found { IfOk result (λ rows. RowsFit rows × (bytes.now ≡ rows_bytes rows)) }
    ensures cause { IfErr result (λ error. IsCause bytes.now error) }
{
    let mut rows = Rows::new(alloc);
    let mut rest = bytes;
    while !rest.is_empty() {
        let Some((row, after)) = read_row(alloc, rest)? else {
            return Err(RowError::Bad {
                at: (bytes.len() - rest.len()) as u64,
            });
        };
        rows.push(row)?;
        rest = after;
    }
    Ok(rows)
}

// The row that the bytes begin with, and the bytes after it.
fn read_row(alloc: Global, bytes: &[u8]) -> Result<Option<(Row, &[u8])>, NoMemory>
    ensures { IfOk result (λ read. MatchOption read (NoneBegins row_bytes RowFits bytes.now)
        (λ x. Begins row_bytes RowFits bytes.now x.0 x.1.now)) }
{
    let Some((width, rest)) = read_u16(bytes) else {
        return Ok(None);
    };
    if width > WIDTH_LIMIT {
        return Ok(None);
    }
    read_values(alloc, width, rest)
}

// This many values that the bytes begin with.
fn read_values(alloc: Global, count: u16, bytes: &[u8]) -> Result<Option<(Row, &[u8])>, NoMemory>
    ensures { IfOk result
        (λ read. MatchOption read (NoneBegins values_bytes (AreValues count) bytes.now)
        (λ x. Begins values_bytes (AreValues count) bytes.now x.0 x.1.now)) }
{
    // A value has a byte at least, so no more room is taken than the bytes can fill.
    let mut row = Row::with_capacity(alloc, usize::from(count).min(bytes.len()))?;
    let mut rest = bytes;
    for _ in 0..count {
        let Some((value, after)) = read_value(alloc, rest)? else {
            return Ok(None);
        };
        row.push(value)?;
        rest = after;
    }
    Ok(Some((row, rest)))
}

fn read_value(alloc: Global, bytes: &[u8]) -> Result<Option<(Value, &[u8])>, NoMemory>
    ensures { IfOk result (λ read. MatchOption read (NoneBegins value_bytes ValueFits bytes.now)
        (λ x. Begins value_bytes ValueFits bytes.now x.0 x.1.now)) }
{
    match bytes {
        [0, rest @ ..] => Ok(Some((Value::Null, rest))),
        [1, rest @ ..] => Ok(read_int(rest)),
        [2, rest @ ..] => read_text(alloc, rest),
        _ => Ok(None),
    }
}

// The number behind its tag.
fn read_int(bytes: &[u8]) -> Option<(Value, &[u8])>
    ensures { MatchOption result (NoneBegins value_bytes ValueFits (1 ∷ bytes.now))
        (λ x. Begins value_bytes ValueFits (1 ∷ bytes.now) x.0 x.1.now) }
{
    let (number, rest) = read_u64(bytes)?;
    Some((Value::Int(number.cast_signed()), rest))
}

// The text behind its tag. No memory is taken before all of its bytes are seen.
fn read_text(alloc: Global, bytes: &[u8]) -> Result<Option<(Value, &[u8])>, NoMemory>
    ensures { IfOk result
        (λ read. MatchOption read (NoneBegins value_bytes ValueFits (2 ∷ bytes.now))
        (λ x. Begins value_bytes ValueFits (2 ∷ bytes.now) x.0 x.1.now)) }
{
    let Some((len, rest)) = read_u32(bytes) else {
        return Ok(None);
    };
    let len = len as usize;
    if len > TEXT_LIMIT || rest.len() < len {
        return Ok(None);
    }
    let (text, rest) = rest.split_at(len);
    Ok(Some((Value::Text(Bytes::from_slice(alloc, text)?), rest)))
}

/// The number of two bytes, big endian, that the bytes begin with, and the bytes after it.
pub fn read_u16(bytes: &[u8]) -> Option<(u16, &[u8])>
    ensures { MatchOption result (NoneBegins (to_be_bytes w16) (λ n. n < 2 ^ 16) bytes.now)
        (λ x. Begins (to_be_bytes w16) (λ n. n < 2 ^ 16) bytes.now x.0 x.1.now) }
{
    let (number, rest) = bytes.split_first_chunk::<2>()?;
    Some((u16::from_be_bytes(*number), rest))
}

/// The number of four bytes, big endian, that the bytes begin with, and the bytes after it.
pub fn read_u32(bytes: &[u8]) -> Option<(u32, &[u8])>
    ensures { MatchOption result (NoneBegins (to_be_bytes w32) (λ n. n < 2 ^ 32) bytes.now)
        (λ x. Begins (to_be_bytes w32) (λ n. n < 2 ^ 32) bytes.now x.0 x.1.now) }
{
    let (number, rest) = bytes.split_first_chunk::<4>()?;
    Some((u32::from_be_bytes(*number), rest))
}

/// The number of eight bytes, big endian, that the bytes begin with, and the bytes after it.
pub fn read_u64(bytes: &[u8]) -> Option<(u64, &[u8])>
    ensures { MatchOption result (NoneBegins (to_be_bytes w64) (λ n. n < 2 ^ 64) bytes.now)
        (λ x. Begins (to_be_bytes w64) (λ n. n < 2 ^ 64) bytes.now x.0 x.1.now) }
{
    let (number, rest) = bytes.split_first_chunk::<8>()?;
    Some((u64::from_be_bytes(*number), rest))
}
