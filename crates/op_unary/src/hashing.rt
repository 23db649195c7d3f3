ghost use Rattle.std.specs.Prelude.{◌≡◌, fold};
ghost use Rattle.plan_model.specs.Operators.{key_of};
ghost use Rattle.op_unary.specs.Cells.{or_null};
ghost use Rattle.op_unary.specs.Hashes.{hash_of, mixed, value_hash};

use crate::cells::cell;
use row_core::{Row, Value};

const HASH_START: u64 = 14_695_981_039_346_656_037;

const HASH_PRIME: u64 = 1_099_511_628_211;

/// The hash of a row's key, the values in these columns.
pub fn hash_key(keys: &[u32], row: &Row) -> u64
    ensures { result ≡ hash_of (key_of keys.now row.now) }
{
    let mut state = HASH_START;
    for key in keys {
        state = hash_cell(state, cell(row, *key));
    }
    state
}

/// The hash of a whole row.
pub fn hash_row(row: &Row) -> u64
    ensures { result ≡ hash_of row.now }
{
    hash_values(row.as_slice())
}

fn hash_values(values: &[Value]) -> u64
    ensures { result ≡ hash_of values.now }
{
    let mut state = HASH_START;
    for value in values {
        state = hash_value(state, value);
    }
    state
}

fn hash_cell(state: u64, value: Option<&Value>) -> u64
    ensures { result ≡ value_hash state (or_null value.entry) }
{
    match value {
        Some(value) => hash_value(state, value),
        None => mix(state, 0),
    }
}

// The state after the value.
fn hash_value(state: u64, value: &Value) -> u64
    ensures { result ≡ value_hash state value.now }
{
    match value {
        Value::Null => mix(state, 0),
        Value::Int(number) => mix(mix(state, 1), number.cast_unsigned()),
        Value::Text(text) => hash_bytes(mix(state, 2), text.as_slice()),
    }
}

// The state after these bytes.
fn hash_bytes(state: u64, bytes: &[u8]) -> u64
    ensures { result ≡ fold mixed state bytes.now }
{
    let mut after = state;
    for byte in bytes {
        after = mix(after, u64::from(*byte));
    }
    after
}

// The state after one word.
#[tactic(auto, unfolding(crate::specs::Hashes::mixed))]
fn mix(state: u64, word: u64) -> u64
    ensures { result ≡ mixed state word }
{
    (state ^ word).wrapping_mul(HASH_PRIME)
}
