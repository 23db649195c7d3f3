ghost use Rattle.std.specs.Prelude.{◌≡◌, ◌≤◌, ◌∷◌, [], All, List, false, map, Some, IfOk, IsTrue, OnOk};
ghost use Rattle.std.specs.List.{flat_map};
ghost use Rattle.bag_laws.specs.Rows.{OneRow};
ghost use Rattle.operator_laws.specs.Texts.{ConstantsFit};
ghost use Rattle.plan_model.specs.Nodes.{Alike, IsGood};
ghost use Rattle.plan_model.specs.Operators.{is_source};
ghost use Rattle.plan_model.specs.Plans.{bag_of};
ghost use Rattle.plan_model.specs.declared.op.Op.TheVariants.{Join as JoinOp, Union as UnionOp};
ghost use Rattle.row_collector.specs.Collecting.{Collects};
ghost use Rattle.row_core.specs.Bags.{SameBag};
ghost use Rattle.row_core.specs.Values.{width_limit};
ghost use Rattle.task_body.specs.Inputs.{input_bag, input_rows};
ghost use Rattle.task_body.specs.Plans.{IsEncodable};
ghost use Rattle.vertex_builder.specs.Edges.{is_join};
ghost use Rattle.vertex_laws.specs.VertexRows.{no_files, taken_bags};

use crate::TaskInput;
use crate::batch::Batch;
use crate::reading::{push_input, read_input};
use plan_model::{JoinKind, KeyPairs, Op, Side, Widths};
use row_collector::Collector;
use row_core::NoMemory;
use row_operators::RowBuffer;
use std::alloc::Global;

/// What an operator but a source gives on its inputs, as an attempt reads them.
pub fn operate(
    alloc: Global,
    op: &Op,
    attempt: u32,
    inputs: &[TaskInput],
) -> Result<Batch, NoMemory>
    requires reads { is_source op.now ≡ false }
    requires good { IsGood op.now (map (input_bag op.now) inputs.now) }
    requires constants { ConstantsFit op.now }
    ensures given { IfOk result
        (λ batch. Alike batch (bag_of no_files op.now (map (input_bag op.now) inputs.now))) }
    ensures fit { IfOk result (λ batch. IsEncodable batch) }
{
    match op {
        Op::Union => unite(alloc, op, attempt, inputs),
        Op::Join { kind, keys } => {
            let left = read_input(alloc, op, attempt, &inputs[0])?;
            let right = read_input(alloc, op, attempt, &inputs[1])?;
            join(alloc, *kind, keys, left, right)
        }
        _ => apply(alloc, op, read_input(alloc, op, attempt, &inputs[0])?),
    }
}

/// What an operator on one input gives.
pub fn apply(alloc: Global, op: &Op, batch: Batch) -> Result<Batch, NoMemory>
    requires good { IsGood op.now (batch ∷ []) }
    requires constants { ConstantsFit op.now }
    requires fit { IsEncodable batch }
    ensures given { IfOk result (λ given. Alike given (bag_of no_files op.now (batch ∷ []))) }
    ensures fit { IfOk result (λ given. IsEncodable given) }
{
    if op.is_sink() {
        return Ok(batch);
    }
    let Batch { width, rows } = batch;
    let rows = row_operators::apply(alloc, op, width, rows)?;
    let width = op.width(&[width]) as u32;
    Ok(Batch { width, rows })
}

/// What a join that is widened gives on the rows of its probe side and those that are built.
pub fn join_to(
    alloc: Global,
    op: &Op,
    side: Side,
    probe: Batch,
    build: Batch,
) -> Result<Batch, NoMemory>
    requires join { IsTrue (is_join op.now) }
    requires good { IsGood op.now (taken_bags (Some side) probe build) }
    requires probe { IsEncodable probe }
    requires build { IsEncodable build }
    ensures given { IfOk result
        (λ given. Alike given (bag_of no_files op.now (taken_bags (Some side) probe build))) }
    ensures fit { IfOk result (λ given. IsEncodable given) }
{
    let Op::Join { kind, keys } = op else {
        unreachable!();
    };
    match side {
        Side::Left => join(alloc, *kind, keys, build, probe),
        Side::Right => join(alloc, *kind, keys, probe, build),
    }
}

fn join(
    alloc: Global,
    kind: JoinKind,
    keys: &KeyPairs,
    left: Batch,
    right: Batch,
) -> Result<Batch, NoMemory>
    requires good { IsGood (JoinOp kind keys.now) (left ∷ right ∷ []) }
    requires left { IsEncodable left }
    requires right { IsEncodable right }
    ensures given { IfOk result
        (λ given. Alike given (bag_of no_files (JoinOp kind keys.now) (left ∷ right ∷ []))) }
    ensures fit { IfOk result (λ given. IsEncodable given) }
{
    let widths = Widths {
        left: left.width,
        right: right.width,
    };
    let width = kind.width(u64::from(left.width), u64::from(right.width)) as u32;
    let rows = row_operators::join(alloc, kind, keys, widths, &left.rows, &right.rows)?;
    Ok(Batch { width, rows })
}

// The rows of all inputs, one input after the other.
fn unite(alloc: Global, op: &Op, attempt: u32, inputs: &[TaskInput]) -> Result<Batch, NoMemory>
    requires union { op.now ≡ UnionOp }
    requires good { IsGood op.now (map (input_bag op.now) inputs.now) }
    ensures given { IfOk result
        (λ batch. Alike batch (bag_of no_files op.now (map (input_bag op.now) inputs.now))) }
    ensures fit { IfOk result (λ batch. IsEncodable batch) }
{
    let width = inputs[0].width;
    let mut buffer = RowBuffer::new(alloc, width);
    push_inputs(alloc, op, attempt, inputs, &mut buffer)?;
    let rows = buffer.into_rows();
    Ok(Batch { width, rows })
}

fn push_inputs<C: Collector>(
    alloc: Global,
    op: &Op,
    attempt: u32,
    inputs: &[TaskInput],
    out: &mut C,
) -> Result<(), NoMemory>
    requires reads { is_source op.now ≡ false }
    requires widths { All (λ input. input.width ≡ C.width out.old) inputs.now }
    requires narrow { C.width out.old ≤ width_limit }
    ensures width { OnOk result (C.width out.new ≡ C.width out.old) }
    ensures kept { OnOk result (C.kept out.new ≡ C.kept out.old) }
    ensures takes { OnOk result ((read : List OneRow)
        × (SameBag read (flat_map (input_rows op.now) inputs.now)
        × Collects C.holds out.old out.new read)) }
{
    for input in inputs {
        push_input(alloc, op, attempt, input, out)?;
    }
    Ok(())
}
