ghost use Rattle.std.specs.Prelude.{◌≡◌, ◌<◌, ◌∷◌, [], All, length, map, slice_set, IsTrue, OnOk};
ghost use Rattle.row_core.specs.declared.value.Value.TheVariants.{Text as text_value};
ghost use Rattle.row_core.specs.Encoding.{RowFits};
ghost use Rattle.plan_model.specs.Operators.{exploded, pieces};
ghost use Rattle.row_collector.specs.Collecting.{Collects};
ghost use Rattle.row_steps.specs.Chained.{chained, ops_of, StepsFit};
ghost use Rattle.row_view.specs.Views.{row_seen};

use crate::piece::first_piece;
use crate::shorter::copies;
use crate::shown::{show, value_in};
use crate::values::{operands_at, values_of};
use plan_model::Op;
use row_collector::Collector;
use row_core::NoMemory;
use row_view::{ValueRef, holds_at};
use std::alloc::Global;

/// Gives the collector the rows that the steps give on a row, in their order. A union gives each
/// row as it is.
#[cycle(push)]
pub fn push_row<C: Collector>(
    alloc: Global,
    steps: &[&Op],
    row: &[ValueRef],
    out: &mut C,
) -> Result<(), NoMemory>
    requires row { RowFits (row_seen row.now) }
    requires steps { StepsFit (length row.now) (ops_of steps.now) (C.width out.old) }
    ensures width { C.width out.new ≡ C.width out.old }
    ensures kept { C.kept out.new ≡ C.kept out.old }
    ensures takes { OnOk result (Collects C.holds out.old out.new
        (chained (ops_of steps.now) (row_seen row.now ∷ []))) }
{
    let [step, rest @ ..] = steps else {
        return out.collect(&*row);
    };
    match *step {
        Op::Filter { test } => {
            let passes = holds_at(alloc, test, &*row)?;
            if !passes {
                return Ok(());
            }
            push_row(alloc, rest, &*row, out)
        }
        Op::Project { exprs } => {
            let operands = operands_at(alloc, exprs.as_slice(), &*row)?;
            let values = values_of(alloc, operands.as_slice())?;
            push_row(alloc, rest, values.as_slice(), out)
        }
        Op::Explode { column, separator } => {
            push_exploded(alloc, *column, *separator, rest, &*row, out)
        }
        _ => push_row(alloc, rest, &*row, out),
    }
}

// Pushes the row once for each piece of the text in the column.
#[cycle(push)]
fn push_exploded<C: Collector>(
    alloc: Global,
    column: u32,
    separator: u8,
    steps: &[&Op],
    row: &[ValueRef],
    out: &mut C,
) -> Result<(), NoMemory>
    requires column { column < length row.now }
    requires row { RowFits (row_seen row.now) }
    requires steps { StepsFit (length row.now) (ops_of steps.now) (C.width out.old) }
    ensures width { C.width out.new ≡ C.width out.old }
    ensures kept { C.kept out.new ≡ C.kept out.old }
    ensures takes { OnOk result (Collects C.holds out.old out.new
        (chained (ops_of steps.now) (exploded column separator (row_seen row.now ∷ [])))) }
{
    let value = value_in(&*row, column);
    let shown = show(alloc, value)?;
    match shown {
        None => Ok(()),
        Some(text) => {
            push_pieces(
                alloc,
                column,
                separator,
                &*steps,
                &*row,
                text.as_slice(),
                out,
            )
        }
    }
}

// Pushes the row with each piece of the text in turn in the column.
#[cycle(push)]
fn push_pieces<'b, C: Collector>(
    alloc: Global,
    column: u32,
    separator: u8,
    steps: &[&Op],
    row: &'b [ValueRef],
    text: &'b [u8],
    out: &mut C,
) -> Result<(), NoMemory>
    requires column { column < length row.now }
    requires pieces { All (λ piece. RowFits (slice_set (row_seen row.now) column (text_value piece)))
        (pieces separator text.now) }
    requires steps { StepsFit (length row.now) (ops_of steps.now) (C.width out.old) }
    ensures width { C.width out.new ≡ C.width out.old }
    ensures kept { C.kept out.new ≡ C.kept out.old }
    ensures takes { OnOk result (Collects C.holds out.old out.new (chained (ops_of steps.now)
        (map (λ piece. slice_set (row_seen row.now) column (text_value piece))
        (pieces separator text.now)))) }
{
    let mut with_piece = copies(alloc, row)?;
    let mut rest = Some(text);
    while let Some(text) = rest {
        let (piece, after) = first_piece(text, separator);
        with_piece[column as usize] = ValueRef::Text(piece);
        push_row(alloc, &*steps, with_piece.as_slice(), out)?;
        rest = after;
    }
    Ok(())
}
