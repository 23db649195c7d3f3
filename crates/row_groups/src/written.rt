ghost use Rattle.std.specs.Prelude.{◌≡◌, ◌≤◌, ◌++◌, All, length, map, IfOk, OnOk};
ghost use Rattle.std.specs.List.{AllByRecursion};
ghost use Rattle.row_core.specs.Encoding.{values_bytes, TextFits};
ghost use Rattle.row_groups.specs.Accumulators.{finish, states_of};
ghost use Rattle.row_groups.specs.Written.{group_bytes, groups_bytes};

use crate::accumulator::Accumulator;
use row_core::{Bytes, NoMemory};
use row_set::ByteSet;
use row_view::put_value;
use std::alloc::Global;

/// The bytes of the groups' rows, which have this width. Of each key its values' bytes are given.
pub fn write_groups(
    alloc: Global,
    width: u16,
    keys: &ByteSet,
    groups: &[Vec<Accumulator>],
) -> Result<Bytes, NoMemory>
    requires told { length keys.now ≤ length groups.now }
    requires texts { All (λ states. AllByRecursion TextFits (map finish states))
        (states_of groups.now) }
    ensures { IfOk result (λ bytes. bytes ≡ groups_bytes width keys.now (states_of groups.now)) }
{
    let mut bytes = Bytes::new(alloc);
    for place in 0..keys.len() {
        put_group(&mut bytes, width, keys.get(place), groups[place].as_slice())?;
    }
    Ok(bytes)
}

// Adds a group's row at the end.
fn put_group(
    bytes: &mut Bytes,
    width: u16,
    key: &[u8],
    states: &[Accumulator],
) -> Result<(), NoMemory>
    requires { AllByRecursion TextFits (map finish states.now) }
    ensures { OnOk result (bytes.new ≡ bytes.old ++ group_bytes width key.now states.now) }
{
    bytes.extend(&width.to_be_bytes())?;
    bytes.extend(key)?;
    put_states(bytes, states)?;
    Ok(())
}

// Adds the values of the accumulators at the end.
fn put_states(bytes: &mut Bytes, states: &[Accumulator]) -> Result<(), NoMemory>
    requires { AllByRecursion TextFits (map finish states.now) }
    ensures { OnOk result (bytes.new ≡ bytes.old ++ values_bytes (map finish states.now)) }
{
    for state in states {
        put_value(bytes, state.finish())?;
    }
    Ok(())
}
