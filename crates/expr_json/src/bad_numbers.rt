ghost use Rattle.std.specs.Prelude.{◌≡◌};
ghost use Rattle.serde_json.specs.View.{view, items_view, number_view};
ghost use Rattle.expr_json.specs.BadNumbers.{is_column, is_literal, is_bad_pair, has_bad_pair, bad_number_in, bad_number_among};

use serde_json::{Number, Value};

/// Whether somewhere in the value's lists there stands `["col",n]` with a number that is no integer
/// of 32 bits, or `["int",n]` with one that is no integer of 64 bits with a sign. Objects are not
/// looked into. `-0`, `1.0` and `1e2` are no integers.
#[cycle(bad_numbers)]
pub fn has_bad_number(value: &Value) -> bool
    ensures { result ≡ bad_number_in (view value.now) }
{
    match value {
        Value::Array(items) => matches_bad_pair(items.as_slice()) || has_bad_item(items),
        _ => false,
    }
}

#[cycle(bad_numbers)]
fn has_bad_item(items: &Vec<Value>) -> bool
    ensures { result ≡ bad_number_among (items_view items.now.items) }
{
    for item in items {
        if has_bad_number(item) {
            return true;
        }
    }
    false
}

#[tactic(auto, using(crate::proofs::BadPairs::too_few, crate::proofs::BadPairs::too_many))]
fn matches_bad_pair(items: &[Value]) -> bool
    ensures { result ≡ has_bad_pair (items_view items.now) }
{
    match items {
        [word, number] => fits_badly(word, number),
        _ => false,
    }
}

fn fits_badly(word: &Value, number: &Value) -> bool
    ensures { result ≡ is_bad_pair (view word.now) (view number.now) }
{
    let Some(word) = word.as_str() else {
        return false;
    };
    let Some(number) = number.as_number() else {
        return false;
    };
    (word == "col" && !fits_column(number)) || (word == "int" && !fits_literal(number))
}

fn fits_column(number: &Number) -> bool
    ensures { result ≡ is_column (number_view number.now) }
{
    match number.as_u64() {
        Some(column) => column <= u32::MAX as u64,
        None => false,
    }
}

fn fits_literal(number: &Number) -> bool
    ensures { result ≡ is_literal (number_view number.now) }
{
    match number.as_i64() {
        Some(_literal) => true,
        None => false,
    }
}
