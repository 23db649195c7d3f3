ghost use Rattle.std.specs.Prelude.{◌≡◌, ◌<◌, ◌^◌, ◌||◌, ℕ, nat_eq, false, [], length, get_or, slice_get, Some, Err, IfOk, IfNone, map, ◌++◌, not};
ghost use Rattle.plan_model.specs.declared.plan_fault.PlanFault.{PlanFault};
ghost use Rattle.plan_model.specs.declared.plan_error.PlanError;
ghost use Rattle.std.specs.List.{list_any, list_all};
ghost use Rattle.plan_model.specs.Checks.{plan_faults, told_at, node_kinds, dangling_kinds, same_sink_kinds, no_sink_faults, all_inputs, is_consumed, unless, is_sink, sink_name};
ghost use Rattle.std.specs.Str.{bytes_eq};
ghost use Rattle.plan_model.specs.declared.plan_kind.PlanKind.TheVariants.{Dangling, SameSink};

use crate::name_set::insert_name;
use crate::node_check::check_node;
use crate::widths::widths_at;
use crate::{GoodPlan, Node, Op, Plan, PlanError, PlanFault, PlanKind};
use indexmap::IndexSet;
use row_core::NoMemory;
use std::alloc::Global;

/// The plan, where it has no fault; else the first fault: of each node in order, and then of the whole.
/// The rules are those of docs/SEMANTICS.md.
pub fn check_plan(alloc: Global, plan: Plan) -> Result<GoodPlan, PlanError>
    requires { length plan < 2 ^ 32 }
    ensures good { IfOk result (λ good. good ≡ plan) }
    ensures faultless { IfOk result (λ good. plan_faults plan ≡ []) }
    ensures first { (fault : PlanFault) → result ≡ Err (PlanError.Fault fault)
        → slice_get (plan_faults plan) 0 ≡ Some fault }
{
    match first_fault(alloc, plan.as_slice())? {
        Some(fault) => Err(PlanError::Fault(fault)),
        None => Ok(GoodPlan::from_plan(plan)),
    }
}

fn first_fault(alloc: Global, nodes: &[Node]) -> Result<Option<PlanFault>, NoMemory>
    requires { length nodes.now < 2 ^ 32 }
    ensures { IfOk result (λ fault. fault ≡ slice_get (plan_faults nodes.now) 0) }
{
    if let Some(fault) = node_fault(alloc, nodes)? {
        return Ok(Some(fault));
    }
    if let Some(fault) = no_sink_fault(nodes) {
        return Ok(Some(fault));
    }
    if let Some(fault) = dangling_fault(alloc, nodes)? {
        return Ok(Some(fault));
    }
    same_sink_fault(alloc, nodes)
}

fn node_fault(alloc: Global, nodes: &[Node]) -> Result<Option<PlanFault>, NoMemory>
    requires { length nodes.now < 2 ^ 32 }
    ensures { IfOk result (λ fault. fault ≡ slice_get (told_at node_kinds [] nodes.now) 0) }
{
    let mut widths = Vec::with_capacity(alloc, nodes.len())?;
    for (place, node) in nodes.iter().enumerate() {
        let inputs = widths_at(alloc, widths.as_slice(), &node.inputs)?;
        match check_node(&nodes[..place], inputs.as_slice(), node) {
            Ok(width) => widths.push(width)?,
            Err(kind) => return Ok(Some(fault_at(place, kind))),
        }
    }
    Ok(None)
}

fn no_sink_fault(nodes: &[Node]) -> Option<PlanFault>
    ensures { result ≡ slice_get (no_sink_faults nodes.now) 0 }
{
    if has_sink(nodes) {
        return None;
    }
    Some(PlanFault {
        node: None,
        kind: PlanKind::NoSink,
    })
}

fn has_sink(nodes: &[Node]) -> bool
    ensures { result ≡ list_any (λ node. is_sink node.op) nodes.now }
{
    nodes.iter().any(|node| node.op.is_sink())
}

fn dangling_fault(alloc: Global, nodes: &[Node]) -> Result<Option<PlanFault>, NoMemory>
    requires { length nodes.now < 2 ^ 32 }
    ensures { IfOk result (λ fault. fault ≡ slice_get (told_at
        (dangling_kinds nodes.now) [] nodes.now) 0) }
{
    let consumed = consumed(alloc, nodes)?;
    for (place, node) in nodes.iter().enumerate() {
        if let Some(kind) = dangling_kind(node, consumed[place]) {
            return Ok(Some(fault_at(place, kind)));
        }
    }
    Ok(None)
}

fn dangling_kind(node: &Node, consumed: bool) -> Option<PlanKind>
    ensures { result ≡ slice_get (unless (is_sink node.now.op || consumed) Dangling) 0 }
{
    if node.op.is_sink() || consumed {
        return None;
    }
    Some(PlanKind::Dangling)
}

/// Whether some node takes the rows of each node.
fn consumed(alloc: Global, nodes: &[Node]) -> Result<Vec<bool>, NoMemory>
    ensures len { IfOk result (λ marks. length marks.items ≡ length nodes.now) }
    ensures marks { IfOk result (λ marks. (k : ℕ) → k < length nodes.now
        → get_or marks.items k false ≡ is_consumed nodes.now k) }
{
    let inputs = all_inputs(alloc, nodes)?;
    let mut marks = vec![in alloc; false; nodes.len()]?;
    for input in inputs.as_slice() {
        mark(&mut marks, *input as usize);
    }
    Ok(marks)
}

fn mark(marks: &mut Vec<bool>, place: usize)
    ensures len { length marks.new.items ≡ length marks.old.items }
    ensures marks { (k : ℕ) → k < length marks.old.items → get_or marks.new.items k false
        ≡ (nat_eq k place || get_or marks.old.items k false) }
{
    if place < marks.len() {
        marks[place] = true;
    }
}

fn all_inputs(alloc: Global, nodes: &[Node]) -> Result<Vec<u32>, NoMemory>
    ensures { IfOk result (λ inputs. inputs.items ≡ all_inputs nodes.now) }
{
    let mut inputs = Vec::new(alloc);
    for node in nodes {
        inputs.extend_from_slice(node.inputs.as_slice())?;
    }
    Ok(inputs)
}

fn same_sink_fault(alloc: Global, nodes: &[Node]) -> Result<Option<PlanFault>, NoMemory>
    requires { length nodes.now < 2 ^ 32 }
    ensures { IfOk result (λ fault. fault ≡ slice_get (told_at same_sink_kinds [] nodes.now) 0) }
{
    let mut names = IndexSet::new(alloc);
    for (place, node) in nodes.iter().enumerate() {
        if let Some(kind) = same_sink_kind(&mut names, node)? {
            return Ok(Some(fault_at(place, kind)));
        }
    }
    Ok(None)
}

/// Whether the node is a sink whose name stands among these; if not, the name joins them.
fn same_sink_kind<'a>(
    names: &mut IndexSet<&'a [u8]>,
    node: &'a Node,
) -> Result<Option<PlanKind>, NoMemory>
    ensures kind { IfOk result (λ kind. kind ≡ slice_get (unless (list_all (λ name. not
        (list_any (bytes_eq name) (map (λ key. key.now) names.old.keys)))
        (sink_name node.now.op)) SameSink) 0) }
    ensures joined { IfOk result (λ kind. IfNone kind (map (λ key. key.now) names.new.keys
        ≡ map (λ key. key.now) names.old.keys ++ sink_name node.now.op)) }
{
    let Op::Sink { name } = &node.op else {
        return Ok(None);
    };
    if insert_name(names, name.as_slice())? {
        Ok(None)
    } else {
        Ok(Some(PlanKind::SameSink))
    }
}

fn fault_at(place: usize, kind: PlanKind) -> PlanFault
    requires { place < 2 ^ 32 }
    ensures { result ≡ record { node = Some place; kind = kind } }
{
    PlanFault {
        node: Some(place as u32),
        kind,
    }
}
