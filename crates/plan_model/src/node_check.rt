ghost use Rattle.std.specs.Prelude.{◌≡◌, ◌≤◌, ◌&&◌, length, slice_get, None, Some, All, IfOk, IfErr};
ghost use Rattle.std.specs.List.{list_all};
ghost use Rattle.row_core.specs.Values.{width_limit};
ghost use Rattle.plan_model.specs.Widths.{width_of, widths_of, input_widths};
ghost use Rattle.plan_model.specs.Checks.{takes, gives_rows, node_kinds};

use crate::{Node, PlanKind};

/// The greatest number of values of a row.
const WIDTH_LIMIT: u64 = 256;

/// The width of a node's rows, or the first thing that is wrong with it. `before` are the nodes before it,
/// `widths` those of its inputs.
pub fn check_node(before: &[Node], widths: &[u32], node: &Node) -> Result<u32, PlanKind>
    requires widths { widths.now ≡ input_widths (widths_of before.now) node.now.inputs }
    requires narrow { All (λ width. width ≤ width_limit) widths.now }
    ensures faultless { IfOk result (λ width. slice_get (node_kinds before.now node.now) 0 ≡ None) }
    ensures first { IfErr result (λ kind. slice_get (node_kinds before.now node.now) 0
        ≡ Some kind) }
    ensures width { IfOk result (λ width. width ≡ width_of node.now.op widths.now) }
    ensures narrow { IfOk result (λ width. width ≤ width_limit) }
{
    if !inputs_fit(before, node) {
        return Err(PlanKind::BadInput);
    }
    if !node.op.has_keys() {
        return Err(PlanKind::NoKeys);
    }
    if node.rebalance && !node.op.may_rebalance() {
        return Err(PlanKind::BadShip);
    }
    if !node.op.columns_fit(widths) {
        return Err(PlanKind::BadColumn);
    }
    if !node.op.widths_agree(widths) {
        return Err(PlanKind::BadWidth);
    }
    let width = node.op.width(widths);
    if width > WIDTH_LIMIT {
        return Err(PlanKind::TooWide);
    }
    Ok(width as u32)
}

fn inputs_fit(before: &[Node], node: &Node) -> bool
    ensures { result ≡ (takes node.now.op (length node.now.inputs) && list_all
        (gives_rows before.now) node.now.inputs) }
{
    let inputs = node.inputs.as_slice();
    node.op.takes(inputs.len()) && all_give_rows(before, inputs)
}

fn all_give_rows(before: &[Node], places: &[u32]) -> bool
    ensures { result ≡ list_all (gives_rows before.now) places.now }
{
    places.iter().all(|place| gives_rows(before, *place))
}

fn gives_rows(before: &[Node], place: u32) -> bool
    ensures { result ≡ gives_rows before.now place }
{
    match before.get(place as usize) {
        Some(node) => !node.op.is_sink(),
        None => false,
    }
}
