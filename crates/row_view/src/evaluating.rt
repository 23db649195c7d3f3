ghost use Rattle.std.specs.Prelude.{◌≡◌, ◌+ℤ◌, ◌-ℤ◌, ◌*ℤ◌, length, IfOk, IsTrue};
ghost use Rattle.row_core.specs.Values.{text_of, concatenated};
ghost use Rattle.row_core.specs.Exprs.{on_ints, checked_value, value_at, columns_within};
ghost use Rattle.row_view.specs.Views.{seen, row_seen};
ghost use Rattle.row_view.specs.Operands.{operand_seen};

use crate::ValueRef;
use row_core::{Bytes, Expr, NoMemory, TEXT_LIMIT};
use std::alloc::Global;

/// The value of an expression: where it stands, or a text that was made.
#[derive(Drop)]
pub enum Operand<'a> {
    Seen(ValueRef<'a>),
    Made(Bytes),
}

impl<'a> Operand<'a> {
    pub fn value(&self) -> ValueRef<'_>
        ensures { seen result ≡ operand_seen self.now }
    {
        match self {
            Operand::Seen(value) => *value,
            Operand::Made(text) => ValueRef::Text(text.as_slice()),
        }
    }
}

/// The value of an expression at a row.
pub fn evaluate<'a>(
    alloc: Global,
    expr: &'a Expr,
    row: &[ValueRef<'a>],
) -> Result<Operand<'a>, NoMemory>
    requires { IsTrue (columns_within (length row.now) expr.now) }
    ensures { IfOk result (λ operand. operand_seen operand ≡ value_at (row_seen row.now) expr.now) }
{
    match expr {
        Expr::Col(column) => Ok(Operand::Seen(row[*column as usize])),
        Expr::Const(value) => Ok(Operand::Seen(ValueRef::of(value))),
        Expr::Add(a, b) => {
            let a = evaluate(alloc, a.get(), row)?;
            let b = evaluate(alloc, b.get(), row)?;
            Ok(Operand::Seen(sum(a.value(), b.value())))
        }
        Expr::Sub(a, b) => {
            let a = evaluate(alloc, a.get(), row)?;
            let b = evaluate(alloc, b.get(), row)?;
            Ok(Operand::Seen(difference(a.value(), b.value())))
        }
        Expr::Mul(a, b) => {
            let a = evaluate(alloc, a.get(), row)?;
            let b = evaluate(alloc, b.get(), row)?;
            Ok(Operand::Seen(product(a.value(), b.value())))
        }
        Expr::Concat(a, b) => {
            let a = evaluate(alloc, a.get(), row)?;
            let b = evaluate(alloc, b.get(), row)?;
            concatenation(alloc, a.value(), b.value())
        }
    }
}

fn sum<'a>(a: ValueRef, b: ValueRef) -> ValueRef<'a>
    ensures { seen result ≡ on_ints (λ m n. m +ℤ n) (seen a.entry) (seen b.entry) }
{
    match (a, b) {
        (ValueRef::Int(a), ValueRef::Int(b)) => number(a.checked_add(b)),
        _ => ValueRef::Null,
    }
}

fn difference<'a>(a: ValueRef, b: ValueRef) -> ValueRef<'a>
    ensures { seen result ≡ on_ints (λ m n. m -ℤ n) (seen a.entry) (seen b.entry) }
{
    match (a, b) {
        (ValueRef::Int(a), ValueRef::Int(b)) => number(a.checked_sub(b)),
        _ => ValueRef::Null,
    }
}

fn product<'a>(a: ValueRef, b: ValueRef) -> ValueRef<'a>
    ensures { seen result ≡ on_ints (λ m n. m *ℤ n) (seen a.entry) (seen b.entry) }
{
    match (a, b) {
        (ValueRef::Int(a), ValueRef::Int(b)) => number(a.checked_mul(b)),
        _ => ValueRef::Null,
    }
}

// What a checked operation gives: Null where the number has more than 64 bits.
fn number<'a>(checked: Option<i64>) -> ValueRef<'a>
    ensures { seen result ≡ checked_value checked }
{
    match checked {
        Some(number) => ValueRef::Int(number),
        None => ValueRef::Null,
    }
}

fn concatenation<'a>(alloc: Global, a: ValueRef, b: ValueRef) -> Result<Operand<'a>, NoMemory>
    ensures { IfOk result (λ operand. operand_seen operand
        ≡ concatenated (text_of (seen a.entry)) (text_of (seen b.entry))) }
{
    let Some(mut joined) = text(alloc, a)? else {
        return Ok(Operand::Seen(ValueRef::Null));
    };
    let Some(more) = text(alloc, b)? else {
        return Ok(Operand::Seen(ValueRef::Null));
    };
    if joined.len() + more.len() > TEXT_LIMIT {
        return Ok(Operand::Seen(ValueRef::Null));
    }
    joined.extend(more.as_slice())?;
    Ok(Operand::Made(joined))
}

// The text that a value shows, if it is not Null.
fn text(alloc: Global, value: ValueRef) -> Result<Option<Bytes>, NoMemory>
    ensures { IfOk result (λ text. text ≡ text_of (seen value.entry)) }
{
    match value {
        ValueRef::Null => Ok(None),
        ValueRef::Int(number) => {
            let shown = number.to_string(alloc)?;
            Ok(Some(Bytes::from_slice(alloc, shown.as_bytes())?))
        }
        ValueRef::Text(text) => Ok(Some(Bytes::from_slice(alloc, text)?)),
    }
}
