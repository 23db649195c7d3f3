//! The lists that spell: a word, and the parts behind it.
ghost use Rattle.std.specs.Prelude.{◌≡◌, [], ◌∷◌, option_map, IfOk};
ghost use Rattle.serde_json.specs.View.{view, items_view};
ghost use Rattle.expr_json.specs.Reading.{word_of};
ghost use Rattle.expr_json.specs.Spelling.{form};

use row_core::NoMemory;
use serde_json::Value;
use std::alloc::Global;

pub fn word_and_parts(value: &Value) -> Option<(&str, &[Value])>
    ensures { option_map (λ p. (p.0.now, items_view p.1.now)) result ≡ word_of (view value.now) }
{
    let (word, parts) = value.as_array()?.as_slice().split_first()?;
    Some((word.as_str()?, parts))
}

pub fn form_of_none(alloc: Global, word: &str) -> Result<Value, NoMemory>
    ensures { IfOk result (λ value. view value ≡ form word.now []) }
{
    let word = Value::try_from_str(alloc, word)?;
    Ok(Value::Array(vec![in alloc; word]?))
}

pub fn form_of_one(alloc: Global, word: &str, part: Value) -> Result<Value, NoMemory>
    ensures { IfOk result (λ value. view value ≡ form word.now (view part ∷ [])) }
{
    let word = Value::try_from_str(alloc, word)?;
    Ok(Value::Array(vec![in alloc; word, part]?))
}

pub fn form_of_two(alloc: Global, word: &str, a: Value, b: Value) -> Result<Value, NoMemory>
    ensures { IfOk result (λ value. view value ≡ form word.now (view a ∷ view b ∷ [])) }
{
    let word = Value::try_from_str(alloc, word)?;
    Ok(Value::Array(vec![in alloc; word, a, b]?))
}
