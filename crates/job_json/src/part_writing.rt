//! The parts of nodes as JSON values.
ghost use Rattle.std.specs.Prelude.{◌≡◌, ◌<◌, ◌∷◌, [], map, length, IfOk, IsTrue, IsUtf8};
ghost use Rattle.std.specs.List.{list_all};
ghost use Rattle.serde_json.specs.Data.{string};
ghost use Rattle.serde_json.specs.View.{view};
ghost use Rattle.row_core.specs.declared.expr.Expr.{Expr};
ghost use Rattle.expr_json.specs.Ranges.{has_utf8_texts};
ghost use Rattle.expr_json.specs.Spelling.{expr_value};
ghost use Rattle.job_json.specs.Spelling.{list_value, number_value, kind_word, column_value, pair_value, column_agg_value, agg_value, join_kind_word};
ghost use Rattle.job_json.specs.WellFormed.{is_named};

use crate::names::write_name;
use expr_json::{write_expr, write_text};
use plan_model::{Agg, Column, JoinKind, Kind};
use row_core::{Expr, NoMemory};
use serde_json::Value;
use std::alloc::Global;

fn list_of_one(alloc: Global, item: Value) -> Result<Value, NoMemory>
    ensures { IfOk result (λ value. view value ≡ list_value (view item ∷ [])) }
{
    let mut items = Vec::with_capacity(alloc, 1)?;
    items.push(item)?;
    Ok(Value::Array(items))
}

fn list_of_two(alloc: Global, first: Value, second: Value) -> Result<Value, NoMemory>
    ensures { IfOk result (λ value. view value ≡ list_value (view first ∷ view second ∷ [])) }
{
    let mut items = Vec::with_capacity(alloc, 2)?;
    items.push(first)?;
    items.push(second)?;
    Ok(Value::Array(items))
}

/// The columns of a source.
pub fn write_columns(alloc: Global, columns: &[Column]) -> Result<Value, NoMemory>
    requires { IsTrue (list_all is_named columns.now) }
    ensures { IfOk result (λ value. view value ≡ list_value (map column_value columns.now)) }
{
    let mut values = Vec::new(alloc);
    for column in columns {
        values.push(write_column(alloc, column)?)?;
    }
    Ok(Value::Array(values))
}

fn write_column(alloc: Global, column: &Column) -> Result<Value, NoMemory>
    requires { IsTrue (is_named column.now) }
    ensures { IfOk result (λ value. view value ≡ column_value column.now) }
{
    let name = write_name(alloc, &column.name)?;
    let kind = Value::try_from_str(alloc, kind_text(column.kind))?;
    list_of_two(alloc, name, kind)
}

fn kind_text(kind: Kind) -> &'static str
    ensures { result.now ≡ kind_word kind }
{
    match kind {
        Kind::IntKind => "int",
        Kind::TextKind => "text",
    }
}

/// Columns or nodes by their numbers.
pub fn write_numbers(alloc: Global, numbers: &[u32]) -> Result<Value, NoMemory>
    ensures { IfOk result (λ value. view value ≡ list_value (map number_value numbers.now)) }
{
    let mut values = Vec::new(alloc);
    for number in numbers {
        values.push(Value::from(*number))?;
    }
    Ok(Value::Array(values))
}

/// The key columns of a join.
pub fn write_pairs(alloc: Global, pairs: &[(u32, u32)]) -> Result<Value, NoMemory>
    ensures { IfOk result (λ value. view value ≡ list_value (map pair_value pairs.now)) }
{
    let mut values = Vec::new(alloc);
    for (left, right) in pairs {
        values.push(list_of_two(alloc, Value::from(*left), Value::from(*right))?)?;
    }
    Ok(Value::Array(values))
}

/// The aggregates of an aggregate node.
pub fn write_aggs(alloc: Global, aggs: &[Agg]) -> Result<Value, NoMemory>
    ensures { IfOk result (λ value. view value ≡ list_value (map agg_value aggs.now)) }
{
    let mut values = Vec::new(alloc);
    for agg in aggs {
        values.push(write_agg(alloc, *agg)?)?;
    }
    Ok(Value::Array(values))
}

fn write_agg(alloc: Global, agg: Agg) -> Result<Value, NoMemory>
    ensures { IfOk result (λ value. view value ≡ agg_value agg) }
{
    match agg {
        Agg::Count => list_of_one(alloc, Value::try_from_str(alloc, "count")?),
        Agg::Sum(column) => write_column_agg(alloc, "sum", column),
        Agg::Min(column) => write_column_agg(alloc, "min", column),
        Agg::Max(column) => write_column_agg(alloc, "max", column),
    }
}

fn write_column_agg(alloc: Global, word: &str, column: u32) -> Result<Value, NoMemory>
    ensures { IfOk result (λ value. view value ≡ column_agg_value word.now column) }
{
    let word = Value::try_from_str(alloc, word)?;
    list_of_two(alloc, word, Value::from(column))
}

/// The expressions of a project node.
pub fn write_exprs(alloc: Global, exprs: &[Expr]) -> Result<Value, NoMemory>
    requires { IsTrue (list_all has_utf8_texts exprs.now) }
    ensures { IfOk result (λ value. view value ≡ list_value (map expr_value exprs.now)) }
{
    let mut values = Vec::new(alloc);
    for expr in exprs {
        values.push(write_expr(alloc, expr)?)?;
    }
    Ok(Value::Array(values))
}

/// A separator as a text.
pub fn write_separator(alloc: Global, separator: u8) -> Result<Value, NoMemory>
    requires { separator < 128 }
    ensures { IfOk result (λ value. view value ≡ string (separator ∷ [])) }
{
    write_text(alloc, [separator].as_slice())
}

/// The word for the kind of a join.
pub fn join_kind_text(kind: JoinKind) -> &'static str
    ensures { result.now ≡ join_kind_word kind }
{
    match kind {
        JoinKind::Inner => "inner",
        JoinKind::Left => "left",
        JoinKind::Right => "right",
        JoinKind::Full => "full",
        JoinKind::Semi => "semi",
        JoinKind::Anti => "anti",
    }
}
