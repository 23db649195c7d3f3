//! Nodes: the members of each are read in the order in which faults are looked for.
ghost use Rattle.std.specs.Prelude.{◌≡◌, ◌≤◌, ◌<◌, ◌^◌, ◌∷◌, [], length, map, Some, IfOk, IsTrue};
ghost use Rattle.std.specs.List.{list_all};
ghost use Rattle.job_json.specs.WellFormed.{has_utf8_texts_in};
ghost use Rattle.serde_json.specs.View.{view};
ghost use Rattle.job_json.specs.Faults.{Gives};
ghost use Rattle.job_json.specs.NodeTexts.{GivesNode};
ghost use Rattle.job_json.specs.Nodes.{source_of, filter_of, project_of, explode_of, union_of, aggregate_of, distinct_of, join_of, sink_of, node_by, op_kind_of, node_of, nodes_from};

use crate::aggs::read_aggs;
use crate::columns::read_columns;
use crate::exprs::{read_exprs, read_where};
use crate::node_reader::NodeReader;
use crate::numbers::{read_inputs, read_keys, read_pairs};
use crate::object::Object;
use crate::op_kind::OpKind;
use crate::words::{read_join_kind, read_separator, read_ship};
use crate::{JobError, JobFault, JobFaultKind};
use plan_model::{Node, Op};
use row_core::{Columns, NoMemory};
use serde_json::Value;
use std::alloc::Global;

#[tactic(auto, unfolding(crate::specs::Nodes::source_of))]
fn read_source(reader: NodeReader, node: &Value) -> Result<Node, JobError>
    ensures { GivesNode result (source_of reader.node (view node.now)) }
{
    let table = reader.name(node, "table")?;
    let columns = read_columns(reader, node)?;
    Ok(Node {
        op: Op::Source { table, columns },
        inputs: Columns::from_vec(Vec::new(reader.alloc)),
        rebalance: false,
    })
}

#[tactic(auto, unfolding(crate::specs::Nodes::filter_of))]
fn read_filter(reader: NodeReader, node: &Value) -> Result<Node, JobError>
    ensures { GivesNode result (filter_of reader.node (view node.now)) }
{
    let input = reader.number(node, "input")?;
    let test = read_where(reader, node)?;
    let rebalance = read_ship(reader, node)?;
    Ok(Node {
        op: Op::Filter { test },
        inputs: one_input(reader.alloc, input)?,
        rebalance,
    })
}

#[tactic(auto, unfolding(crate::specs::Nodes::project_of))]
fn read_project(reader: NodeReader, node: &Value) -> Result<Node, JobError>
    ensures { GivesNode result (project_of reader.node (view node.now)) }
{
    let input = reader.number(node, "input")?;
    let exprs = read_exprs(reader, node)?;
    let rebalance = read_ship(reader, node)?;
    Ok(Node {
        op: Op::Project { exprs },
        inputs: one_input(reader.alloc, input)?,
        rebalance,
    })
}

#[tactic(auto, unfolding(crate::specs::Nodes::explode_of))]
fn read_explode(reader: NodeReader, node: &Value) -> Result<Node, JobError>
    ensures { GivesNode result (explode_of reader.node (view node.now)) }
{
    let input = reader.number(node, "input")?;
    let column = reader.number(node, "column")?;
    let separator = read_separator(reader, node)?;
    let rebalance = read_ship(reader, node)?;
    Ok(Node {
        op: Op::Explode { column, separator },
        inputs: one_input(reader.alloc, input)?,
        rebalance,
    })
}

#[tactic(auto, unfolding(crate::specs::Nodes::union_of))]
fn read_union(reader: NodeReader, node: &Value) -> Result<Node, JobError>
    ensures { GivesNode result (union_of reader.node (view node.now)) }
{
    let inputs = read_inputs(reader, node)?;
    Ok(Node {
        op: Op::Union,
        inputs,
        rebalance: false,
    })
}

#[tactic(auto, unfolding(crate::specs::Nodes::aggregate_of))]
fn read_aggregate(reader: NodeReader, node: &Value) -> Result<Node, JobError>
    ensures { GivesNode result (aggregate_of reader.node (view node.now)) }
{
    let input = reader.number(node, "input")?;
    let keys = read_keys(reader, node)?;
    let aggs = read_aggs(reader, node)?;
    Ok(Node {
        op: Op::Aggregate { keys, aggs },
        inputs: one_input(reader.alloc, input)?,
        rebalance: false,
    })
}

#[tactic(auto, unfolding(crate::specs::Nodes::distinct_of))]
fn read_distinct(reader: NodeReader, node: &Value) -> Result<Node, JobError>
    ensures { GivesNode result (distinct_of reader.node (view node.now)) }
{
    let input = reader.number(node, "input")?;
    Ok(Node {
        op: Op::Distinct,
        inputs: one_input(reader.alloc, input)?,
        rebalance: false,
    })
}

#[tactic(auto, unfolding(crate::specs::Nodes::join_of))]
fn read_join(reader: NodeReader, node: &Value) -> Result<Node, JobError>
    ensures { GivesNode result (join_of reader.node (view node.now)) }
{
    let kind = read_join_kind(reader, node)?;
    let left = reader.number(node, "left")?;
    let right = reader.number(node, "right")?;
    let keys = read_pairs(reader, node)?;
    Ok(Node {
        op: Op::Join { kind, keys },
        inputs: two_inputs(reader.alloc, left, right)?,
        rebalance: false,
    })
}

#[tactic(auto, unfolding(crate::specs::Nodes::sink_of))]
fn read_sink(reader: NodeReader, node: &Value) -> Result<Node, JobError>
    ensures { GivesNode result (sink_of reader.node (view node.now)) }
{
    let input = reader.number(node, "input")?;
    let name = reader.name(node, "name")?;
    let rebalance = read_ship(reader, node)?;
    Ok(Node {
        op: Op::Sink { name },
        inputs: one_input(reader.alloc, input)?,
        rebalance,
    })
}

fn read_operator(reader: NodeReader, kind: OpKind, node: &Value) -> Result<Node, JobError>
    ensures { GivesNode result (node_by kind reader.node (view node.now)) }
{
    match kind {
        OpKind::Source => read_source(reader, node),
        OpKind::Filter => read_filter(reader, node),
        OpKind::Project => read_project(reader, node),
        OpKind::Explode => read_explode(reader, node),
        OpKind::Union => read_union(reader, node),
        OpKind::Aggregate => read_aggregate(reader, node),
        OpKind::Distinct => read_distinct(reader, node),
        OpKind::Join => read_join(reader, node),
        OpKind::Sink => read_sink(reader, node),
    }
}

#[tactic(auto, unfolding(crate::specs::Nodes::op_kind_of))]
fn read_op_kind(reader: NodeReader, node: &Value) -> Result<OpKind, JobError>
    ensures { Gives (λ x. x) result (op_kind_of reader.node (view node.now)) }
{
    let value = reader.member(node, "op")?;
    let Some(word) = value.as_str() else {
        return Err(reader.fault(JobFaultKind::BadMember, "op"));
    };
    match OpKind::named(word) {
        Some(kind) => Ok(kind),
        None => Err(reader.fault(JobFaultKind::UnknownOp, "op")),
    }
}

fn one_input(alloc: Global, input: u32) -> Result<Columns, NoMemory>
    ensures { IfOk result (λ inputs. inputs ≡ input ∷ []) }
{
    Ok(Columns::from_vec(vec![in alloc; input]?))
}

fn two_inputs(alloc: Global, left: u32, right: u32) -> Result<Columns, NoMemory>
    ensures { IfOk result (λ inputs. inputs ≡ left ∷ right ∷ []) }
{
    Ok(Columns::from_vec(vec![in alloc; left, right]?))
}

/// The node of this number.
#[tactic(auto, unfolding(crate::specs::Nodes::node_of))]
pub fn read_node(alloc: Global, number: u32, node: &Value) -> Result<Node, JobError>
    ensures { GivesNode result (node_of number (view node.now)) }
{
    let Some(members) = node.as_object() else {
        return Err(JobError::Fault(JobFault {
            kind: JobFaultKind::BadMember,
            node: Some(number),
            name: None,
        }));
    };
    let reader = NodeReader {
        alloc,
        node: Some(number),
    };
    let kind = read_op_kind(reader, node)?;
    let read = read_operator(reader, kind, node)?;
    reader.check_known(Object::Node(kind), members)?;
    Ok(read)
}

/// All nodes, numbered from 0.
#[tactic(auto, using(crate::proofs::Shapes::list_all_more))]
pub fn read_nodes(alloc: Global, items: &[Value]) -> Result<Vec<Node>, JobError>
    requires { length items.now < 2 ^ 32 }
    ensures gives { Gives (λ nodes. nodes.items) result (nodes_from 0 (map view items.now)) }
    ensures texts { IfOk result (λ nodes. IsTrue (list_all has_utf8_texts_in nodes.items)) }
{
    let mut nodes = Vec::new(alloc);
    for (number, item) in items.iter().enumerate() {
        nodes.push(read_node(alloc, number as u32, item)?)?;
    }
    Ok(nodes)
}
