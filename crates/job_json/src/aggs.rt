//! The aggregates of an aggregate node.
ghost use Rattle.std.specs.Prelude.{◌≡◌, map, option_map, IfOk};
ghost use Rattle.std.specs.List.{list_all};
ghost use Rattle.serde_json.specs.View.{view};
ghost use Rattle.job_json.specs.Faults.{Gives};
ghost use Rattle.job_json.specs.Members.{each};
ghost use Rattle.job_json.specs.Parts.{is_count, is_column_word, is_column_agg, is_agg, column_agg_in, agg_in, aggs_of};

use crate::json_shape::{has_number, matches_text, number_u32, one_item, two_items};
use crate::node_reader::NodeReader;
use crate::{JobError, JobFaultKind};
use plan_model::{Agg, Aggs};
use row_core::NoMemory;
use serde_json::Value;
use std::alloc::Global;

/// The aggregates of a node.
#[tactic(auto, unfolding(crate::specs::Parts::aggs_of))]
pub fn read_aggs(reader: NodeReader, node: &Value) -> Result<Aggs, JobError>
    ensures { Gives (λ x. x) result (aggs_of reader.node (view node.now)) }
{
    let items = reader.list(node, "aggs")?;
    if !has_aggs(items) {
        return Err(reader.fault(JobFaultKind::BadMember, "aggs"));
    }
    reader.check_length(items)?;
    match aggs_from(reader.alloc, items)? {
        Some(aggs) => Ok(Aggs::from_vec(aggs)),
        None => Err(reader.fault(JobFaultKind::BadNumber, "aggs")),
    }
}

fn has_aggs(items: &[Value]) -> bool
    ensures { result ≡ list_all is_agg (map view items.now) }
{
    items.iter().all(|item| matches_agg(item))
}

#[tactic(auto, unfolding(crate::specs::Parts::is_agg))]
fn matches_agg(value: &Value) -> bool
    ensures { result ≡ is_agg (view value.now) }
{
    matches_count(value) || matches_column_agg(value)
}

fn matches_count(value: &Value) -> bool
    ensures { result ≡ is_count (view value.now) }
{
    match one_item(value) {
        Some(word) => matches_text(word, "count"),
        None => false,
    }
}

fn matches_column_agg(value: &Value) -> bool
    ensures { result ≡ is_column_agg (view value.now) }
{
    match two_items(value) {
        Some((word, column)) => matches_column_word(word) && has_number(column),
        None => false,
    }
}

fn matches_column_word(word: &Value) -> bool
    ensures { result ≡ is_column_word (view word.now) }
{
    matches_text(word, "sum") || matches_text(word, "min") || matches_text(word, "max")
}

fn aggs_from(alloc: Global, items: &[Value]) -> Result<Option<Vec<Agg>>, NoMemory>
    ensures { IfOk result
        (λ r. option_map (λ aggs. aggs.items) r ≡ each agg_in (map view items.now)) }
{
    let mut aggs = Vec::new(alloc);
    for item in items {
        let Some(agg) = read_agg(item) else {
            return Ok(None);
        };
        aggs.push(agg)?;
    }
    Ok(Some(aggs))
}

#[tactic(auto, unfolding(crate::specs::Parts::agg_in))]
fn read_agg(value: &Value) -> Option<Agg>
    ensures { result ≡ agg_in (view value.now) }
{
    if matches_count(value) {
        return Some(Agg::Count);
    }
    let (word, column) = two_items(value)?;
    Some(column_agg(word, number_u32(column)?))
}

#[tactic(auto, unfolding(crate::specs::Parts::column_agg_in))]
fn column_agg(word: &Value, column: u32) -> Agg
    ensures { result ≡ column_agg_in (view word.now) column }
{
    if matches_text(word, "sum") {
        return Agg::Sum(column);
    }
    if matches_text(word, "min") {
        return Agg::Min(column);
    }
    Agg::Max(column)
}
