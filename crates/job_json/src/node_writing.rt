//! Nodes as JSON values.
ghost use Rattle.std.specs.Prelude.{◌≡◌, ◌<◌, [], ◌∷◌, codes, length, map, All, IfOk, IsTrue};
ghost use Rattle.std.specs.List.{list_all};
ghost use Rattle.serde_json.specs.Data.{string};
ghost use Rattle.serde_json.specs.View.{view, members_view};
ghost use Rattle.expr_json.specs.Ranges.{has_utf8_texts, test_has_utf8_texts};
ghost use Rattle.plan_model.specs.declared.op.Op.TheVariants as Op;
ghost use Rattle.job_json.specs.Members.{is_name};
ghost use Rattle.job_json.specs.Spelling.{list_value, input_value, members_from, op_members, with_ship, node_value};
ghost use Rattle.job_json.specs.WellFormed.{is_named, has_utf8, IsOpForm, IsNodeForm};

use crate::names::write_name;
use crate::part_writing::{
    join_kind_text, write_aggs, write_columns, write_exprs, write_numbers, write_pairs,
    write_separator,
};
use expr_json::write_test;
use plan_model::{Aggs, Exprs, JoinKind, KeyPairs, Node, Op, Schema};
use row_core::{Bytes, Columns, NoMemory, Pred};
use serde_json::{Map, Value, put};
use std::alloc::Global;

type Members = Map<String, Value>;

/// The nodes of a plan.
pub fn write_nodes(alloc: Global, nodes: &[Node]) -> Result<Value, NoMemory>
    requires { All IsNodeForm nodes.now }
    ensures { IfOk result (λ value. view value ≡ list_value (map node_value nodes.now)) }
{
    let mut values = Vec::new(alloc);
    for node in nodes {
        values.push(write_node(alloc, node)?)?;
    }
    Ok(Value::Array(values))
}

fn write_node(alloc: Global, node: &Node) -> Result<Value, NoMemory>
    requires { IsNodeForm node.now }
    ensures { IfOk result (λ value. view value ≡ node_value node.now) }
{
    let members = write_op(alloc, &node.op, &node.inputs)?;
    let members = add_ship(alloc, node.rebalance, members)?;
    Ok(Value::Object(members))
}

fn add_ship(alloc: Global, rebalance: bool, mut members: Members) -> Result<Members, NoMemory>
    ensures { IfOk result (λ added. members_view added.entries
        ≡ with_ship rebalance (members_view members.entries)) }
{
    if rebalance {
        let ship = Value::try_from_str(alloc, "rebalance")?;
        put(&mut members, alloc, "ship", ship)?;
    }
    Ok(members)
}

fn write_op(alloc: Global, op: &Op, inputs: &Columns) -> Result<Members, NoMemory>
    requires form { IsOpForm op.now inputs.now }
    requires texts { IsTrue (has_utf8 op.now) }
    ensures { IfOk result (λ members. members_view members.entries ≡ op_members op.now inputs.now) }
{
    match op {
        Op::Source { table, columns } => write_source(alloc, table, columns),
        Op::Filter { test } => write_filter(alloc, test, inputs),
        Op::Project { exprs } => write_project(alloc, exprs, inputs),
        Op::Explode { column, separator } => write_explode(alloc, *column, *separator, inputs),
        Op::Union => write_union(alloc, inputs),
        Op::Aggregate { keys, aggs } => write_aggregate(alloc, keys, aggs, inputs),
        Op::Distinct => unary_members(alloc, "distinct", inputs),
        Op::Join { kind, keys } => write_join(alloc, *kind, keys, inputs),
        Op::Sink { name } => write_sink(alloc, name, inputs),
    }
}

// An input of a node, by its place.
fn write_input(inputs: &Columns, place: usize) -> Value
    requires { place < length inputs.now }
    ensures { view result ≡ input_value inputs.now place }
{
    Value::from(inputs.as_slice()[place])
}

// The member that every node has.
fn node_members(alloc: Global, op: &str) -> Result<Members, NoMemory>
    ensures { IfOk result (λ members. members_view members.entries
        ≡ members_from ((codes "op", string op.now) ∷ [])) }
{
    let mut members = Map::new(alloc);
    put(&mut members, alloc, "op", Value::try_from_str(alloc, op)?)?;
    Ok(members)
}

// The members that every node with one input has.
fn unary_members(alloc: Global, op: &str, inputs: &Columns) -> Result<Members, NoMemory>
    requires { 0 < length inputs.now }
    ensures { IfOk result (λ members. members_view members.entries ≡ members_from
        ((codes "input", input_value inputs.now 0) ∷ (codes "op", string op.now) ∷ [])) }
{
    let mut members = node_members(alloc, op)?;
    put(&mut members, alloc, "input", write_input(inputs, 0))?;
    Ok(members)
}

fn write_source(alloc: Global, table: &Bytes, columns: &Schema) -> Result<Members, NoMemory>
    requires table { IsTrue (is_name table.now) }
    requires columns { IsTrue (list_all is_named columns.now) }
    ensures { IfOk result (λ members. members_view members.entries
        ≡ op_members (Op.Source table.now columns.now) []) }
{
    let mut members = node_members(alloc, "source")?;
    let columns = write_columns(alloc, columns.as_slice())?;
    put(&mut members, alloc, "columns", columns)?;
    put(&mut members, alloc, "table", write_name(alloc, table)?)?;
    Ok(members)
}

fn write_filter(alloc: Global, test: &Pred, inputs: &Columns) -> Result<Members, NoMemory>
    requires texts { IsTrue (test_has_utf8_texts test.now) }
    requires inputs { 0 < length inputs.now }
    ensures { IfOk result (λ members. members_view members.entries
        ≡ op_members (Op.Filter test.now) inputs.now) }
{
    let mut members = unary_members(alloc, "filter", inputs)?;
    put(&mut members, alloc, "where", write_test(alloc, test)?)?;
    Ok(members)
}

fn write_project(alloc: Global, exprs: &Exprs, inputs: &Columns) -> Result<Members, NoMemory>
    requires texts { IsTrue (list_all has_utf8_texts exprs.now) }
    requires inputs { 0 < length inputs.now }
    ensures { IfOk result (λ members. members_view members.entries
        ≡ op_members (Op.Project exprs.now) inputs.now) }
{
    let mut members = unary_members(alloc, "project", inputs)?;
    let exprs = write_exprs(alloc, exprs.as_slice())?;
    put(&mut members, alloc, "exprs", exprs)?;
    Ok(members)
}

fn write_explode(
    alloc: Global,
    column: u32,
    separator: u8,
    inputs: &Columns,
) -> Result<Members, NoMemory>
    requires separator { separator < 128 }
    requires inputs { 0 < length inputs.now }
    ensures { IfOk result (λ members. members_view members.entries
        ≡ op_members (Op.Explode column separator) inputs.now) }
{
    let mut members = unary_members(alloc, "explode", inputs)?;
    put(&mut members, alloc, "column", Value::from(column))?;
    let separator = write_separator(alloc, separator)?;
    put(&mut members, alloc, "separator", separator)?;
    Ok(members)
}

fn write_union(alloc: Global, inputs: &Columns) -> Result<Members, NoMemory>
    ensures { IfOk result (λ members. members_view members.entries
        ≡ op_members Op.Union inputs.now) }
{
    let mut members = node_members(alloc, "union")?;
    let inputs = write_numbers(alloc, inputs.as_slice())?;
    put(&mut members, alloc, "inputs", inputs)?;
    Ok(members)
}

fn write_aggregate(
    alloc: Global,
    keys: &Columns,
    aggs: &Aggs,
    inputs: &Columns,
) -> Result<Members, NoMemory>
    requires inputs { 0 < length inputs.now }
    ensures { IfOk result (λ members. members_view members.entries
        ≡ op_members (Op.Aggregate keys.now aggs.now) inputs.now) }
{
    let mut members = unary_members(alloc, "aggregate", inputs)?;
    let aggs = write_aggs(alloc, aggs.as_slice())?;
    put(&mut members, alloc, "aggs", aggs)?;
    let keys = write_numbers(alloc, keys.as_slice())?;
    put(&mut members, alloc, "keys", keys)?;
    Ok(members)
}

fn write_join(
    alloc: Global,
    kind: JoinKind,
    keys: &KeyPairs,
    inputs: &Columns,
) -> Result<Members, NoMemory>
    requires { 1 < length inputs.now }
    ensures { IfOk result (λ members. members_view members.entries
        ≡ op_members (Op.Join kind keys.now) inputs.now) }
{
    let mut members = node_members(alloc, "join")?;
    let keys = write_pairs(alloc, keys.as_slice())?;
    put(&mut members, alloc, "keys", keys)?;
    let kind = Value::try_from_str(alloc, join_kind_text(kind))?;
    put(&mut members, alloc, "kind", kind)?;
    put(&mut members, alloc, "left", write_input(inputs, 0))?;
    put(&mut members, alloc, "right", write_input(inputs, 1))?;
    Ok(members)
}

fn write_sink(alloc: Global, name: &Bytes, inputs: &Columns) -> Result<Members, NoMemory>
    requires name { IsTrue (is_name name.now) }
    requires inputs { 0 < length inputs.now }
    ensures { IfOk result (λ members. members_view members.entries
        ≡ op_members (Op.Sink name.now) inputs.now) }
{
    let mut members = unary_members(alloc, "sink", inputs)?;
    put(&mut members, alloc, "name", write_name(alloc, name)?)?;
    Ok(members)
}
