ghost use Rattle.std.specs.Prelude.{◌≡◌, ◌≤◌, ◌-◌, ◌^◌, min};
ghost use Rattle.serde_json.specs.Data.{depth};
ghost use Rattle.serde_json.specs.View.{view, items_view};
ghost use Rattle.expr_json.specs.Depths.{list_depth, greatest_depth};

use serde_json::Value;

/// The greatest number of the value's lists that stand one within another, 0 for a value that is no
/// list. Objects are not looked into. A depth past u64's greatest number counts as that number.
#[cycle(depths)]
pub fn list_depth(value: &Value) -> u64
    ensures depth { result ≡ min (list_depth (view value.now)) (2 ^ 64 - 1) }
    // A value that was read from a text nests no deeper than its reader allows.
    ensures nests { list_depth (view value.now) ≤ depth (view value.now) }
{
    match value {
        Value::Array(items) => depth_within(items).saturating_add(1),
        _ => 0,
    }
}

#[cycle(depths)]
fn depth_within(items: &Vec<Value>) -> u64
    ensures { result ≡ min (greatest_depth (items_view items.now.items)) (2 ^ 64 - 1) }
{
    let mut greatest = 0;
    for item in items {
        greatest = greatest.max(list_depth(item));
    }
    greatest
}
