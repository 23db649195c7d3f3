ghost use Rattle.std.specs.Prelude.{◌≡◌, ◌+ℤ◌, ◌-ℤ◌, ◌*ℤ◌, length, IfOk, IsTrue};
ghost use Rattle.row_core.specs.Values.{text_of, concatenated};
ghost use Rattle.row_core.specs.Exprs.{on_ints, checked_value, value_at, columns_within};
ghost use Rattle.row_core.specs.CowValues.{value_in};

use crate::cow_value::CowValue;
use crate::value::TEXT_LIMIT;
use crate::{Bytes, Expr, NoMemory, Row, Value};
use std::alloc::Global;

/// The value of an expression at a row.
pub fn eval(alloc: Global, expr: &Expr, row: &Row) -> Result<Value, NoMemory>
    requires { IsTrue (columns_within (length row.now) expr.now) }
    ensures { IfOk result (λ value. value ≡ value_at row.now expr.now) }
{
    evaluate(alloc, expr, row)?.into_value(alloc)
}

/// What `eval` gives, with no copy of a column or a literal.
pub fn evaluate<'a>(alloc: Global, expr: &'a Expr, row: &'a Row) -> Result<CowValue<'a>, NoMemory>
    requires { IsTrue (columns_within (length row.now) expr.now) }
    ensures { IfOk result (λ value. value_in value ≡ value_at row.now expr.now) }
{
    match expr {
        Expr::Col(column) => Ok(CowValue::Borrowed(&row.as_slice()[*column as usize])),
        Expr::Const(value) => Ok(CowValue::Borrowed(value)),
        Expr::Add(a, b) => {
            let a = evaluate(alloc, a.get(), row)?;
            let b = evaluate(alloc, b.get(), row)?;
            Ok(CowValue::Owned(sum(a.value(), b.value())))
        }
        Expr::Sub(a, b) => {
            let a = evaluate(alloc, a.get(), row)?;
            let b = evaluate(alloc, b.get(), row)?;
            Ok(CowValue::Owned(difference(a.value(), b.value())))
        }
        Expr::Mul(a, b) => {
            let a = evaluate(alloc, a.get(), row)?;
            let b = evaluate(alloc, b.get(), row)?;
            Ok(CowValue::Owned(product(a.value(), b.value())))
        }
        Expr::Concat(a, b) => {
            let a = evaluate(alloc, a.get(), row)?.into_value(alloc)?;
            let b = evaluate(alloc, b.get(), row)?.into_value(alloc)?;
            Ok(CowValue::Owned(concatenation(alloc, a, b)?))
        }
    }
}

fn sum(a: &Value, b: &Value) -> Value
    ensures { result ≡ on_ints (λ m n. m +ℤ n) a.now b.now }
{
    match (a, b) {
        (Value::Int(a), Value::Int(b)) => number(a.checked_add(*b)),
        _ => Value::Null,
    }
}

fn difference(a: &Value, b: &Value) -> Value
    ensures { result ≡ on_ints (λ m n. m -ℤ n) a.now b.now }
{
    match (a, b) {
        (Value::Int(a), Value::Int(b)) => number(a.checked_sub(*b)),
        _ => Value::Null,
    }
}

fn product(a: &Value, b: &Value) -> Value
    ensures { result ≡ on_ints (λ m n. m *ℤ n) a.now b.now }
{
    match (a, b) {
        (Value::Int(a), Value::Int(b)) => number(a.checked_mul(*b)),
        _ => Value::Null,
    }
}

// What a checked operation gives: Null where the number has more than 64 bits.
fn number(checked: Option<i64>) -> Value
    ensures { result ≡ checked_value checked }
{
    match checked {
        Some(number) => Value::Int(number),
        None => Value::Null,
    }
}

fn concatenation(alloc: Global, a: Value, b: Value) -> Result<Value, NoMemory>
    ensures { IfOk result (λ value. value ≡ concatenated (text_of a) (text_of b)) }
{
    let Some(mut text) = into_text(alloc, a)? else {
        return Ok(Value::Null);
    };
    let Some(more) = into_text(alloc, b)? else {
        return Ok(Value::Null);
    };
    if text.len() + more.len() > TEXT_LIMIT {
        return Ok(Value::Null);
    }
    text.extend(more.as_slice())?;
    Ok(Value::Text(text))
}

// The text that a value shows, if it is not Null.
fn into_text(alloc: Global, value: Value) -> Result<Option<Bytes>, NoMemory>
    ensures { IfOk result (λ text. text ≡ text_of value) }
{
    match value {
        Value::Null => Ok(None),
        Value::Int(number) => {
            let shown = number.to_string(alloc)?;
            Ok(Some(Bytes::from_slice(alloc, shown.as_bytes())?))
        }
        Value::Text(text) => Ok(Some(text)),
    }
}
