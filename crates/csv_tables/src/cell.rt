ghost use Rattle.std.specs.Prelude.{◌≡◌, ◌+◌, ◌*◌, ◌^◌, ◌<◌};
ghost use Rattle.std.specs.Option.{SomeIff};
ghost use Rattle.plan_model.specs.Tables.{cell_value, int_cell, digits_cell, signed_value};
ghost use Rattle.row_view.specs.Views.{seen};

use plan_model::Kind;
use row_core::TEXT_LIMIT;
use row_view::ValueRef;

/// The value of a cell, where it stands.
pub fn read_cell(kind: Kind, cell: &[u8]) -> ValueRef<'_>
    ensures { seen result ≡ cell_value kind cell.now }
{
    match kind {
        Kind::IntKind => read_int(cell),
        Kind::TextKind => {
            if cell.len() > TEXT_LIMIT {
                return ValueRef::Null;
            }
            ValueRef::Text(cell)
        }
    }
}

// A number behind a minus sign or without one.
fn read_int<'a>(cell: &[u8]) -> ValueRef<'a>
    ensures { seen result ≡ int_cell cell.now }
{
    match cell {
        [b'-', digits @ ..] => read_digits(true, digits),
        digits => read_digits(false, digits),
    }
}

// A number of digits alone. Null where it passes 64 bits on the way, whatever follows.
fn read_digits<'a>(negative: bool, digits: &[u8]) -> ValueRef<'a>
    ensures { seen result ≡ digits_cell negative digits.now }
{
    if digits.is_empty() {
        return ValueRef::Null;
    }
    let mut number = 0u64;
    for digit in digits {
        if !digit.is_ascii_digit() {
            return ValueRef::Null;
        }
        match with_digit(number, *digit - b'0') {
            Some(larger) => number = larger,
            None => return ValueRef::Null,
        }
    }
    signed(negative, number)
}

// The number with one digit more, if it has at most 64 bits.
fn with_digit(number: u64, digit: u8) -> Option<u64>
    ensures { SomeIff result (number * 10 + digit < 2 ^ 64) (number * 10 + digit) }
{
    number.checked_mul(10)?.checked_add(u64::from(digit))
}

// The number below zero or above, if it has at most 64 bits.
fn signed<'a>(negative: bool, number: u64) -> ValueRef<'a>
    ensures { seen result ≡ signed_value negative number }
{
    if negative && number == 1 << 63 {
        return ValueRef::Int(i64::MIN);
    }
    match i64::try_from(number) {
        Ok(number) => ValueRef::Int(if negative { -number } else { number }),
        Err(_) => ValueRef::Null,
    }
}
