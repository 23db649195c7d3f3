//! The parts of a JSON value that is of a wanted shape.
ghost use Rattle.std.specs.Prelude.{◌≡◌, ◌<◌, ◌^◌, map, option_map};
ghost use Rattle.serde_json.specs.View.{view};
ghost use Rattle.job_json.specs.Members.{is_text, is_number, u32_in, list_in, one_item_in, two_items_in};

use serde_json::Value;

/// The items of a list.
#[tactic(auto, using(crate::proofs::Shapes::items_list_of_view))]
pub fn list_items(value: &Value) -> Option<&[Value]>
    ensures { option_map (λ items. map view items.now) result ≡ list_in (view value.now) }
{
    match value.as_array() {
        Some(items) => Some(items.as_slice()),
        None => None,
    }
}

/// The item of a list that has just one.
#[tactic(auto, unfolding(crate::specs::Members::one_item_in))]
pub fn one_item(value: &Value) -> Option<&Value>
    ensures { option_map (λ item. view item.now) result ≡ one_item_in (view value.now) }
{
    match list_items(value)? {
        [item] => Some(item),
        _ => None,
    }
}

/// The items of a list that has just two.
#[tactic(auto, unfolding(crate::specs::Members::two_items_in))]
pub fn two_items(value: &Value) -> Option<(&Value, &Value)>
    ensures { option_map (λ p. (view p.0.now, view p.1.now)) result
        ≡ two_items_in (view value.now) }
{
    match list_items(value)? {
        [first, second] => Some((first, second)),
        _ => None,
    }
}

/// Whether the value is this text.
pub fn matches_text(value: &Value, text: &str) -> bool
    ensures { result ≡ is_text text.now (view value.now) }
{
    match value.as_str() {
        Some(found) => found.as_bytes() == text.as_bytes(),
        None => false,
    }
}

/// Whether the value is a number, of whatever kind.
pub fn has_number(value: &Value) -> bool
    ensures { result ≡ is_number (view value.now) }
{
    value.is_number()
}

/// The value as an unsigned integer of 32 bits.
pub fn number_u32(value: &Value) -> Option<u32>
    ensures { result ≡ u32_in (view value.now) }
{
    let number = value.as_u64()?;
    if number > u32::MAX as u64 {
        return None;
    }
    Some(number as u32)
}
