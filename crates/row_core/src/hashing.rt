ghost use Rattle.std.specs.Prelude.{◌≡◌, ◌<◌, length, List, ℕ, All};
ghost use Rattle.std.specs.List.{AllByRecursion};
ghost use Rattle.row_core.specs.declared.value.Value.{Value as OneValue};
ghost use Rattle.row_core.specs.Encoding.{value_bytes, TextFits};
ghost use Rattle.row_core.specs.Hashing.{hash_from, hash_of_key, key_of};

use crate::{Columns, Row, Value};

/// The state before the first byte of a hash.
pub const HASH_START: u64 = 14_695_981_039_346_656_037;

const HASH_PRIME: u64 = 1_099_511_628_211;

/// The hash of the row's values in these columns, in their order. docs/FORMATS.md has the rule.
pub fn key_hash(row: &Row, cols: &Columns) -> u64
    requires columns { All (λ column. column < length row.now) cols.now }
    requires texts { AllByRecursion TextFits (key_of cols.now row.now) }
    ensures { result ≡ hash_of_key (key_of cols.now row.now) }
{
    let mut state = HASH_START;
    for column in cols.as_slice() {
        state = hash_value(state, &row.as_slice()[*column as usize]);
    }
    state
}

/// Rows of one key have one hash, whichever columns keep it.
pub fn one_hash()
    ensures { (a b : List OneValue) (columns others : List ℕ) → key_of columns a ≡ key_of others b
        → hash_of_key (key_of columns a) ≡ hash_of_key (key_of others b) }
{}

// The state after the value's bytes.
fn hash_value(state: u64, value: &Value) -> u64
    requires { TextFits value.now }
    ensures { result ≡ hash_from state (value_bytes value.now) }
{
    match value {
        Value::Null => hash_more(state, &[0]),
        Value::Int(number) => {
            let tagged = hash_more(state, &[1]);
            hash_more(tagged, &number.cast_unsigned().to_be_bytes())
        }
        Value::Text(text) => {
            let tagged = hash_more(state, &[2]);
            let measured = hash_more(tagged, &(text.len() as u32).to_be_bytes());
            hash_more(measured, text.as_slice())
        }
    }
}

/// The state of a hash after these bytes.
#[tactic(auto, unfolding(crate::specs::Hashing::hash_from))]
pub fn hash_more(state: u64, bytes: &[u8]) -> u64
    ensures { result ≡ hash_from state bytes.now }
{
    let mut after = state;
    for byte in bytes {
        after = (after ^ u64::from(*byte)).wrapping_mul(HASH_PRIME);
    }
    after
}
