//! Lists of columns and of nodes, and pairs of columns.
ghost use Rattle.std.specs.Prelude.{◌≡◌, map, option_map, IfOk};
ghost use Rattle.std.specs.List.{list_all};
ghost use Rattle.serde_json.specs.View.{view};
ghost use Rattle.job_json.specs.Faults.{Gives};
ghost use Rattle.job_json.specs.Members.{each, is_number, u32_in};
ghost use Rattle.job_json.specs.Parts.{keys_of, inputs_of, is_pair, pair_in, pairs_of};

use crate::json_shape::{has_number, number_u32, two_items};
use crate::node_reader::NodeReader;
use crate::{JobError, JobFaultKind};
use plan_model::KeyPairs;
use row_core::{Columns, NoMemory};
use serde_json::Value;
use std::alloc::Global;

/// The least number of inputs of a union.
pub const LEAST_INPUTS: usize = 2;

/// The greatest number of inputs of a union.
pub const INPUT_LIMIT: usize = 64;

/// The key columns of an aggregate.
#[tactic(auto, unfolding(crate::specs::Parts::keys_of))]
pub fn read_keys(reader: NodeReader, node: &Value) -> Result<Columns, JobError>
    ensures { Gives (λ x. x) result (keys_of reader.node (view node.now)) }
{
    let items = reader.list(node, "keys")?;
    if !has_numbers(items) {
        return Err(reader.fault(JobFaultKind::BadMember, "keys"));
    }
    reader.check_length(items)?;
    match numbers_from(reader.alloc, items)? {
        Some(numbers) => Ok(Columns::from_vec(numbers)),
        None => Err(reader.fault(JobFaultKind::BadNumber, "keys")),
    }
}

/// The inputs of a union.
#[tactic(auto, unfolding(crate::specs::Parts::inputs_of))]
pub fn read_inputs(reader: NodeReader, node: &Value) -> Result<Columns, JobError>
    ensures { Gives (λ x. x) result (inputs_of reader.node (view node.now)) }
{
    let items = reader.list(node, "inputs")?;
    if items.len() < LEAST_INPUTS || !has_numbers(items) {
        return Err(reader.fault(JobFaultKind::BadMember, "inputs"));
    }
    if items.len() > INPUT_LIMIT {
        return Err(reader.fault(JobFaultKind::TooMany(items.len() as u64), "inputs"));
    }
    match numbers_from(reader.alloc, items)? {
        Some(numbers) => Ok(Columns::from_vec(numbers)),
        None => Err(reader.fault(JobFaultKind::BadNumber, "inputs")),
    }
}

/// The key columns of a join.
#[tactic(auto, unfolding(crate::specs::Parts::pairs_of))]
pub fn read_pairs(reader: NodeReader, node: &Value) -> Result<KeyPairs, JobError>
    ensures { Gives (λ x. x) result (pairs_of reader.node (view node.now)) }
{
    let items = reader.list(node, "keys")?;
    if !has_pairs(items) {
        return Err(reader.fault(JobFaultKind::BadMember, "keys"));
    }
    reader.check_length(items)?;
    match pairs_from(reader.alloc, items)? {
        Some(pairs) => Ok(KeyPairs::from_vec(pairs)),
        None => Err(reader.fault(JobFaultKind::BadNumber, "keys")),
    }
}

fn has_numbers(items: &[Value]) -> bool
    ensures { result ≡ list_all is_number (map view items.now) }
{
    items.iter().all(|item| has_number(item))
}

fn numbers_from(alloc: Global, items: &[Value]) -> Result<Option<Vec<u32>>, NoMemory>
    ensures { IfOk result (λ r. option_map (λ numbers. numbers.items) r
        ≡ each u32_in (map view items.now)) }
{
    let mut numbers = Vec::new(alloc);
    for item in items {
        let Some(number) = number_u32(item) else {
            return Ok(None);
        };
        numbers.push(number)?;
    }
    Ok(Some(numbers))
}

fn has_pairs(items: &[Value]) -> bool
    ensures { result ≡ list_all is_pair (map view items.now) }
{
    items.iter().all(|item| matches_pair(item))
}

#[tactic(auto, unfolding(crate::specs::Parts::is_pair))]
fn matches_pair(value: &Value) -> bool
    ensures { result ≡ is_pair (view value.now) }
{
    match two_items(value) {
        Some((left, right)) => has_number(left) && has_number(right),
        None => false,
    }
}

fn pairs_from(alloc: Global, items: &[Value]) -> Result<Option<Vec<(u32, u32)>>, NoMemory>
    ensures { IfOk result (λ r. option_map (λ pairs. pairs.items) r
        ≡ each pair_in (map view items.now)) }
{
    let mut pairs = Vec::new(alloc);
    for item in items {
        let Some(pair) = read_pair(item) else {
            return Ok(None);
        };
        pairs.push(pair)?;
    }
    Ok(Some(pairs))
}

#[tactic(auto, unfolding(crate::specs::Parts::pair_in))]
fn read_pair(value: &Value) -> Option<(u32, u32)>
    ensures { result ≡ pair_in (view value.now) }
{
    let (left, right) = two_items(value)?;
    Some((number_u32(left)?, number_u32(right)?))
}
