//! Columns and constants.
ghost use Rattle.std.specs.Prelude.{◌≡◌, IfOk, IfSome, IsTrue, option_map};
ghost use Rattle.serde_json.specs.View.{view, number_view};
ghost use Rattle.expr_json.specs.Ranges.{literal_is_utf8, has_utf8_texts};
ghost use Rattle.expr_json.specs.Reading.{leaf_of, column_of, literal_of};
ghost use Rattle.expr_json.specs.Spelling.{literal_value};

use crate::form::{form_of_none, form_of_one};
use crate::text::write_text;
use row_core::{Bytes, Expr, NoMemory, Value as Literal};
use serde_json::{Number, Value};
use std::alloc::Global;

/// What the word and the item behind it spell, if it is a column or a constant.
#[tactic(auto, unfolding(crate::specs::Reading::leaf_of))]
pub fn read_leaf(alloc: Global, word: &str, item: &Value) -> Result<Option<Expr>, NoMemory>
    ensures is { IfOk result (λ found. found ≡ leaf_of word.now (view item.now)) }
    ensures texts { IfOk result (λ found. IfSome found (λ expr. IsTrue (has_utf8_texts expr))) }
{
    match word {
        "col" => Ok(item.as_number().and_then(column).map(Expr::Col)),
        "int" => Ok(
            item.as_number()
                .and_then(literal)
                .map(|n| Expr::Const(Literal::Int(n))),
        ),
        "text" => match item.as_str() {
            Some(text) => {
                let text = Bytes::from_slice(alloc, text.as_bytes())?;
                Ok(Some(Expr::Const(Literal::Text(text))))
            }
            None => Ok(None),
        },
        _ => Ok(None),
    }
}

fn column(number: &Number) -> Option<u32>
    ensures { result ≡ column_of (number_view number.now) }
{
    match number.as_u64() {
        Some(n) if n <= u32::MAX as u64 => Some(n as u32),
        _ => None,
    }
}

fn literal(number: &Number) -> Option<i64>
    ensures { result ≡ literal_of (number_view number.now) }
{
    number.as_i64()
}

pub fn write_literal(alloc: Global, literal: &Literal) -> Result<Value, NoMemory>
    requires { IsTrue (literal_is_utf8 literal.now) }
    ensures { IfOk result (λ value. view value ≡ literal_value literal.now) }
{
    match literal {
        Literal::Null => form_of_none(alloc, "null"),
        Literal::Int(n) => form_of_one(alloc, "int", Value::from(*n)),
        Literal::Text(text) => form_of_one(alloc, "text", write_text(alloc, text.as_slice())?),
    }
}
