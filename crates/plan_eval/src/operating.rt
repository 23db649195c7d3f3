ghost use Rattle.std.specs.Prelude.{◌≡◌, ◌<◌, ◌≤◌, ◌++◌, ◌∷◌, [], ℕ, All, IfOk, IsTrue, List, OnOk, length, map};
ghost use Rattle.std.specs.List.{flat_map};
ghost use Rattle.plan_eval.specs.Evaluated.{IsOutput};
ghost use Rattle.plan_eval.specs.Tables.{files_of};
ghost use Rattle.plan_model.specs.Nodes.{IsGood};
ghost use Rattle.plan_model.specs.Operators.{is_unary};
ghost use Rattle.plan_model.specs.Plans.{Bag, bag_at};
ghost use Rattle.plan_model.specs.declared.op.Op.TheVariants.{Join as JoinOp, Source as SourceOp, Union as UnionOp};

use crate::TableRows;
use crate::node_output::NodeOutput;
use crate::source_rows::source_rows;
use op_join::join;
use op_unary::apply;
use plan_model::{JoinKind, KeyPairs, Op, Schema, Widths};
use row_core::{Bytes, NoMemory, Row, Rows};
use std::alloc::Global;

/// What an operator gives on the outputs of these nodes, in some order. A sink gives no rows.
pub fn operate(
    alloc: Global,
    tables: &TableRows,
    op: &Op,
    inputs: &[u32],
    outputs: &[NodeOutput],
) -> Result<NodeOutput, NoMemory>
    requires within { All (λ input. input < length outputs.now) inputs.now }
    requires good { IsGood op.now (map (bag_at outputs.now) inputs.now) }
    ensures { IfOk result (λ output.
        IsOutput (files_of tables.now) op.now (map (bag_at outputs.now) inputs.now) output) }
{
    match op {
        Op::Source { table, columns } => read_source(alloc, tables, table, columns),
        Op::Union => unite(alloc, inputs, outputs),
        Op::Join { kind, keys } => {
            let left = output_at(outputs, inputs[0]);
            let right = output_at(outputs, inputs[1]);
            join_sides(alloc, *kind, keys, left, right)
        }
        Op::Sink { .. } => {
            let width = output_at(outputs, inputs[0]).width;
            let rows = Rows::new(alloc);
            Ok(NodeOutput { width, rows })
        }
        _ => apply_to(alloc, op, output_at(outputs, inputs[0])),
    }
}

fn output_at(outputs: &[NodeOutput], node: u32) -> &NodeOutput
    requires { node < length outputs.now }
    ensures { result.now ≡ bag_at outputs.now node }
{
    &outputs[node as usize]
}

fn read_source(
    alloc: Global,
    tables: &TableRows,
    table: &Bytes,
    columns: &Schema,
) -> Result<NodeOutput, NoMemory>
    requires { length columns.now ≤ 256 }
    ensures { IfOk result (λ output. (inputs : List Bag)
        → IsOutput (files_of tables.now) (SourceOp table.now columns.now) inputs output) }
{
    let columns = columns.as_slice();
    let rows = source_rows(alloc, tables, table, columns)?;
    let width = columns.len() as u32;
    Ok(NodeOutput { width, rows })
}

// An operator on one input.
fn apply_to(alloc: Global, op: &Op, input: &NodeOutput) -> Result<NodeOutput, NoMemory>
    requires unary { IsTrue (is_unary op.now) }
    requires good { IsGood op.now (input.now ∷ []) }
    ensures { IfOk result (λ output. (files : List ℕ → List (List ℕ))
        → IsOutput files op.now (input.now ∷ []) output) }
{
    let width = op.width(&[input.width]) as u32;
    let rows = apply(alloc, op, &input.rows)?;
    Ok(NodeOutput { width, rows })
}

fn join_sides(
    alloc: Global,
    kind: JoinKind,
    keys: &KeyPairs,
    left: &NodeOutput,
    right: &NodeOutput,
) -> Result<NodeOutput, NoMemory>
    requires { IsGood (JoinOp kind keys.now) (left.now ∷ right.now ∷ []) }
    ensures { IfOk result (λ output. (files : List ℕ → List (List ℕ))
        → IsOutput files (JoinOp kind keys.now) (left.now ∷ right.now ∷ []) output) }
{
    let widths = Widths {
        left: left.width,
        right: right.width,
    };
    let width = kind.width(u64::from(left.width), u64::from(right.width)) as u32;
    let rows = join(alloc, kind, keys, widths, &left.rows, &right.rows)?;
    Ok(NodeOutput { width, rows })
}

fn unite(alloc: Global, inputs: &[u32], outputs: &[NodeOutput]) -> Result<NodeOutput, NoMemory>
    requires within { All (λ input. input < length outputs.now) inputs.now }
    requires good { IsGood UnionOp (map (bag_at outputs.now) inputs.now) }
    ensures { IfOk result (λ output. (files : List ℕ → List (List ℕ))
        → IsOutput files UnionOp (map (bag_at outputs.now) inputs.now) output) }
{
    let rows = concatenated(alloc, inputs, outputs)?;
    let width = output_at(outputs, inputs[0]).width;
    Ok(NodeOutput { width, rows })
}

// The rows of all inputs, one input after the other.
fn concatenated(alloc: Global, inputs: &[u32], outputs: &[NodeOutput]) -> Result<Rows, NoMemory>
    requires { All (λ input. input < length outputs.now) inputs.now }
    ensures { IfOk result (λ rows. rows
        ≡ flat_map (λ bag. bag.rows) (map (bag_at outputs.now) inputs.now)) }
{
    let mut rows = Vec::new(alloc);
    for input in inputs {
        let output = output_at(outputs, *input);
        push_copies(alloc, &mut rows, output.rows.as_slice())?;
    }
    Ok(Rows::from_vec(rows))
}

fn push_copies(alloc: Global, rows: &mut Vec<Row>, more: &[Row]) -> Result<(), NoMemory>
    ensures { OnOk result (rows.new.items ≡ rows.old.items ++ more.now) }
{
    for row in more {
        rows.push(row.copy(alloc)?)?;
    }
    Ok(())
}
