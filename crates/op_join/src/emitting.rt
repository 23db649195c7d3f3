ghost use Rattle.std.specs.Prelude.{◌≡◌, ◌++◌, map, OnOk};
ghost use Rattle.op_join.specs.Keys.{rows_of};
ghost use Rattle.op_join.specs.Sides.{output};

use crate::keyed::Keyed;
use crate::row_parts::concat;
use crate::rule::Rule;
use row_core::{NoMemory, Row, Rows};
use std::alloc::Global;

/// Appends the rows for a probe row and its matches.
pub fn emit(
    alloc: Global,
    out: &mut Rows,
    rule: Rule,
    padding: &Row,
    row: &Row,
    matches: &[Keyed],
) -> Result<(), NoMemory>
    ensures { OnOk result
        (out.new ≡ out.old ++ output rule padding.now row.now (rows_of matches.now)) }
{
    match (rule, matches.is_empty()) {
        (Rule::Pairs, _) | (Rule::PairsOrPadded, false) => push_pairs(alloc, out, row, matches),
        (Rule::MirroredOrPadded, false) => push_mirrored(alloc, out, row, matches),
        (Rule::PairsOrPadded, true) => out.push(concat(alloc, row, padding)?),
        (Rule::MirroredOrPadded | Rule::PaddedIfUnmatched, true) => {
            out.push(concat(alloc, padding, row)?)
        }
        (Rule::RowIfMatched, false) | (Rule::RowIfUnmatched, true) => out.push(row.copy(alloc)?),
        (Rule::RowIfMatched, true) | (Rule::RowIfUnmatched | Rule::PaddedIfUnmatched, false) => {
            Ok(())
        }
    }
}

fn push_pairs(alloc: Global, out: &mut Rows, row: &Row, matches: &[Keyed]) -> Result<(), NoMemory>
    ensures { OnOk result
        (out.new ≡ out.old ++ map (λ other. row.now ++ other) (rows_of matches.now)) }
{
    for other in matches {
        out.push(concat(alloc, row, other.row)?)?;
    }
    Ok(())
}

fn push_mirrored(
    alloc: Global,
    out: &mut Rows,
    row: &Row,
    matches: &[Keyed],
) -> Result<(), NoMemory>
    ensures { OnOk result
        (out.new ≡ out.old ++ map (λ other. other ++ row.now) (rows_of matches.now)) }
{
    for other in matches {
        out.push(concat(alloc, other.row, row)?)?;
    }
    Ok(())
}
