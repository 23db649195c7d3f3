ghost use Rattle.std.specs.Prelude.{◌≡◌, ◌<◌, drop, length, Some, IfOk, IsTrue};
ghost use Rattle.operator_laws.specs.Texts.{ConstantsFit};
ghost use Rattle.plan_model.specs.Nodes.{Alike, IsGood};
ghost use Rattle.plan_model.specs.Plans.{bag_of};
ghost use Rattle.plan_model.specs.declared.side.Side.{Side as OneSide};
ghost use Rattle.row_core.specs.Bags.{SameBag};
ghost use Rattle.task_body.specs.Inputs.{build_read, builds_behind};
ghost use Rattle.task_body.specs.Plans.{IsEncodable};
ghost use Rattle.task_body.specs.TaskRows.{task_head, task_rows, task_width};
ghost use Rattle.vertex_builder.specs.Edges.{build_side, is_join, widening_of};
ghost use Rattle.vertex_laws.specs.VertexRows.{no_files, op_at, taken_bags};

use crate::batch::Batch;
use crate::operating::{apply, join_to};
use crate::reading::read_input;
use crate::{Task, TaskInput};
use plan_model::{Node, Op, Side};
use row_core::NoMemory;
use std::alloc::Global;
use vertex_builder::Widening;

/// What a task's chain gives of what its head gives.
pub fn chain_batch(alloc: Global, task: &Task, head: Batch) -> Result<Batch, NoMemory>
    requires given { Alike head (task_head task.now) }
    requires fit { IsEncodable head }
    ensures rows { IfOk result (λ batch. SameBag batch.rows (task_rows task.now)) }
    ensures width { IfOk result (λ batch. batch.width ≡ task_width task.now) }
    ensures fit { IfOk result (λ batch. IsEncodable batch) }
{
    let nodes = task.plan().nodes();
    let widened = task.widened().as_slice();
    let attempt = task.name().attempt;
    let mut batch = head;
    let mut chain = task.vertex().nodes.as_slice();
    let mut builds = task.build_inputs();
    while chain.len() > 1 {
        let op = op_at(nodes, chain[1]);
        let side = build_side(nodes, widened, chain[1]);
        batch = link(alloc, op, side, attempt, batch, builds)?;
        builds = builds_behind(side, builds);
        chain = behind_first(chain);
    }
    Ok(batch)
}

// What a chained node gives of the rows of the one before it, with those of its build side.
fn link(
    alloc: Global,
    op: &Op,
    side: Option<Side>,
    attempt: u32,
    batch: Batch,
    builds: &[TaskInput],
) -> Result<Batch, NoMemory>
    requires joins { (build : OneSide) → side ≡ Some build → IsTrue (is_join op.now) }
    requires built { (build : OneSide) → side ≡ Some build → 0 < length builds.now }
    requires good { IsGood op.now (taken_bags side batch (build_read op.now builds.now)) }
    requires constants { ConstantsFit op.now }
    requires fit { IsEncodable batch }
    ensures given { IfOk result (λ given. Alike given
        (bag_of no_files op.now (taken_bags side batch (build_read op.now builds.now)))) }
    ensures fit { IfOk result (λ given. IsEncodable given) }
{
    match side {
        None => apply(alloc, op, batch),
        Some(side) => {
            let build = read_input(alloc, op, attempt, &builds[0])?;
            join_to(alloc, op, side, batch, build)
        }
    }
}

// The build sides that are left for the nodes behind.
fn builds_behind(side: Option<Side>, builds: &[TaskInput]) -> &[TaskInput]
    requires { (build : OneSide) → side ≡ Some build → 0 < length builds.now }
    ensures { result.now ≡ builds_behind side builds.now }
{
    match side {
        None => builds,
        Some(_) => &builds[1..],
    }
}

// The chain behind its first node.
fn behind_first(chain: &[u32]) -> &[u32]
    requires { 0 < length chain.now }
    ensures { result.now ≡ drop 1 chain.now }
{
    &chain[1..]
}

// The side of a node that is read whole, where it is a join that is widened.
fn build_side(nodes: &[Node], widened: &[Widening], node: u32) -> Option<Side>
    requires { node < length nodes.now }
    ensures { result ≡ build_side nodes.now widened.now node }
{
    match op_at(nodes, node) {
        Op::Join { .. } => widening_of(widened, node),
        _ => None,
    }
}

// The side of the first widening of a node.
fn widening_of(widened: &[Widening], node: u32) -> Option<Side>
    ensures { result ≡ widening_of widened.now node }
{
    widened
        .iter()
        .find(|widening| widening.node == node)
        .map(|widening| widening.side)
}

fn op_at(nodes: &[Node], node: u32) -> &Op
    requires { node < length nodes.now }
    ensures { result.now ≡ op_at nodes.now node }
{
    &nodes[node as usize].op
}
