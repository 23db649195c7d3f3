ghost use Rattle.std.specs.Prelude.{◌≡◌, ◌<◌, All, length};
ghost use Rattle.std.specs.List.{AllByRecursion};
ghost use Rattle.row_core.specs.Encoding.{value_bytes, TextFits};
ghost use Rattle.row_core.specs.Hashing.{hash_from, hash_of_key, key_of};
ghost use Rattle.row_view.specs.Views.{seen, row_seen};

use crate::ValueRef;
use row_core::{HASH_START, hash_more};

/// The hash of the row's values in these columns, as `row_core::key_hash` gives it.
pub fn hash_at(row: &[ValueRef], columns: &[u32]) -> u64
    requires columns { All (λ column. column < length row.now) columns.now }
    requires texts { AllByRecursion TextFits (key_of columns.now (row_seen row.now)) }
    ensures { result ≡ hash_of_key (key_of columns.now (row_seen row.now)) }
{
    let mut state = HASH_START;
    for column in columns {
        state = hash_value(state, row[*column as usize]);
    }
    state
}

// The state after the value's bytes.
fn hash_value(state: u64, value: ValueRef) -> u64
    requires { TextFits (seen value) }
    ensures { result ≡ hash_from state (value_bytes (seen value.entry)) }
{
    match value {
        ValueRef::Null => hash_more(state, &[0]),
        ValueRef::Int(number) => {
            let tagged = hash_more(state, &[1]);
            hash_more(tagged, &number.cast_unsigned().to_be_bytes())
        }
        ValueRef::Text(text) => {
            let tagged = hash_more(state, &[2]);
            let measured = hash_more(tagged, &(text.len() as u32).to_be_bytes());
            hash_more(measured, text)
        }
    }
}
