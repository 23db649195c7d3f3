ghost use Rattle.std.specs.Prelude.{◌≡◌, ◌<◌, ◌≤◌, ◌+◌, ◌∷◌, [], length, map, List, OnOk};
ghost use Rattle.std.specs.List.{AllByRecursion};
ghost use Rattle.bag_laws.specs.Rows.{OneRow};
ghost use Rattle.hash_join.specs.Fits.{JoinFits};
ghost use Rattle.hash_join.specs.Joined.{row_gives};
ghost use Rattle.hash_join.specs.Rules.{gives, pair};
ghost use Rattle.hash_join.specs.Spelled.{SpellsSome};
ghost use Rattle.hash_join.specs.Tables.{HoldsTable};
ghost use Rattle.plan_model.specs.Joins.{nulls};
ghost use Rattle.row_collector.specs.Collecting.{Collects};
ghost use Rattle.row_core.specs.Encoding.{values_bytes, RowFits, ValueFits};
ghost use Rattle.row_core.specs.Hashing.{key_of};
ghost use Rattle.row_core.specs.Values.{width_limit};
ghost use Rattle.row_steps.specs.Chained.{chained, ops_of, StepsFit};
ghost use Rattle.row_view.specs.Encoded.{RowOf, Spells};
ghost use Rattle.row_view.specs.Views.{row_seen};

use crate::pairing::{null_row, paired};
use crate::probing::Probe;
use crate::rules::Rule;
use plan_model::{Op, Side};
use row_collector::Collector;
use row_core::NoMemory;
use row_steps::push_row;
use row_view::{RowReader, ValueRef};
use std::alloc::Global;

/// Gives the collector what the steps give on what a probe row gives with its matches. Of its key's
/// values the bytes are given.
pub fn push_probed<C: Collector>(
    alloc: Global,
    probe: &Probe,
    steps: &[&Op],
    key: &[u8],
    row: &[ValueRef],
    out: &mut C,
) -> Result<(), NoMemory>
    requires key { key.now ≡ values_bytes (key_of probe.now.columns (row_seen row.now)) }
    requires row { RowFits (row_seen row.now) }
    requires fits { JoinFits probe.now.rule (length row.now) probe.now.table.now.width
        (ops_of steps.now) (C.width out.old) }
    ensures width { C.width out.new ≡ C.width out.old }
    ensures kept { C.kept out.new ≡ C.kept out.old }
    ensures takes { (built : List OneRow) → HoldsTable probe.now.table.now built
        → OnOk result (Collects C.holds out.old out.new
        (chained (ops_of steps.now) (row_gives probe.now built (row_seen row.now)))) }
{
    match probe.find(key, row) {
        Some(matches) => push_matched(alloc, probe, steps, row, matches, out),
        None => push_unmatched(alloc, probe, steps, row, out),
    }
}

// The same of a row with matches, which these bytes spell.
fn push_matched<C: Collector>(
    alloc: Global,
    probe: &Probe,
    steps: &[&Op],
    row: &[ValueRef],
    matches: &[u8],
    out: &mut C,
) -> Result<(), NoMemory>
    requires row { RowFits (row_seen row.now) }
    requires spelled { SpellsSome probe.now.table.now.width matches.now }
    requires fits { JoinFits probe.now.rule (length row.now) probe.now.table.now.width
        (ops_of steps.now) (C.width out.old) }
    ensures width { C.width out.new ≡ C.width out.old }
    ensures kept { C.kept out.new ≡ C.kept out.old }
    ensures takes { (rows : List OneRow) → Spells probe.now.table.now.width matches.now rows
        → 0 < length rows → OnOk result (Collects C.holds out.old out.new
        (chained (ops_of steps.now) (gives probe.now.rule probe.now.side probe.now.table.now.width
        (row_seen row.now) rows))) }
{
    match probe.rule() {
        Rule::Pairs => push_pairs(alloc, probe, steps, row, matches, out),
        Rule::PairsOrPadded => push_pairs(alloc, probe, steps, row, matches, out),
        Rule::PaddedIfUnmatched => Ok(()),
        Rule::RowIfMatched => push_row(alloc, steps, row, out),
        Rule::RowIfUnmatched => Ok(()),
    }
}

// The same of a row without a match.
fn push_unmatched<C: Collector>(
    alloc: Global,
    probe: &Probe,
    steps: &[&Op],
    row: &[ValueRef],
    out: &mut C,
) -> Result<(), NoMemory>
    requires row { RowFits (row_seen row.now) }
    requires fits { JoinFits probe.now.rule (length row.now) probe.now.table.now.width
        (ops_of steps.now) (C.width out.old) }
    ensures width { C.width out.new ≡ C.width out.old }
    ensures kept { C.kept out.new ≡ C.kept out.old }
    ensures takes { OnOk result (Collects C.holds out.old out.new
        (chained (ops_of steps.now) (gives probe.now.rule probe.now.side probe.now.table.now.width
        (row_seen row.now) []))) }
{
    match probe.rule() {
        Rule::Pairs => Ok(()),
        Rule::PairsOrPadded => push_padded(alloc, probe, steps, row, out),
        Rule::PaddedIfUnmatched => push_padded(alloc, probe, steps, row, out),
        Rule::RowIfMatched => Ok(()),
        Rule::RowIfUnmatched => push_row(alloc, steps, row, out),
    }
}

// Pushes the row with Nulls for the other side.
fn push_padded<C: Collector>(
    alloc: Global,
    probe: &Probe,
    steps: &[&Op],
    row: &[ValueRef],
    out: &mut C,
) -> Result<(), NoMemory>
    requires row { RowFits (row_seen row.now) }
    requires narrow { length row.now + probe.now.table.now.width ≤ width_limit }
    requires steps { StepsFit (length row.now + probe.now.table.now.width) (ops_of steps.now)
        (C.width out.old) }
    ensures width { C.width out.new ≡ C.width out.old }
    ensures kept { C.kept out.new ≡ C.kept out.old }
    ensures takes { OnOk result (Collects C.holds out.old out.new (chained (ops_of steps.now)
        (pair probe.now.side (row_seen row.now) (nulls probe.now.table.now.width) ∷ []))) }
{
    let padding = null_row(alloc, probe.table().width())?;
    push_pair(alloc, probe.side(), steps, row, padding.as_slice(), out)
}

// Pushes the row with each of its matches, which these bytes spell.
fn push_pairs<C: Collector>(
    alloc: Global,
    probe: &Probe,
    steps: &[&Op],
    row: &[ValueRef],
    matches: &[u8],
    out: &mut C,
) -> Result<(), NoMemory>
    requires row { RowFits (row_seen row.now) }
    requires spelled { SpellsSome probe.now.table.now.width matches.now }
    requires narrow { length row.now + probe.now.table.now.width ≤ width_limit }
    requires steps { StepsFit (length row.now + probe.now.table.now.width) (ops_of steps.now)
        (C.width out.old) }
    ensures width { C.width out.new ≡ C.width out.old }
    ensures kept { C.kept out.new ≡ C.kept out.old }
    ensures takes { (rows : List OneRow) → Spells probe.now.table.now.width matches.now rows
        → OnOk result (Collects C.holds out.old out.new (chained (ops_of steps.now)
        (map (pair probe.now.side (row_seen row.now)) rows))) }
{
    let mut reader = RowReader::new(matches);
    push_each(alloc, probe, steps, row, &mut reader, out)
}

// Pushes the row with each row that is left to be read.
fn push_each<C: Collector>(
    alloc: Global,
    probe: &Probe,
    steps: &[&Op],
    row: &[ValueRef],
    reader: &mut RowReader,
    out: &mut C,
) -> Result<(), NoMemory>
    requires row { RowFits (row_seen row.now) }
    requires wide { AllByRecursion (RowOf probe.now.table.now.width) reader.old }
    requires narrow { length row.now + probe.now.table.now.width ≤ width_limit }
    requires steps { StepsFit (length row.now + probe.now.table.now.width) (ops_of steps.now)
        (C.width out.old) }
    ensures width { C.width out.new ≡ C.width out.old }
    ensures kept { C.kept out.new ≡ C.kept out.old }
    ensures takes { OnOk result (Collects C.holds out.old out.new (chained (ops_of steps.now)
        (map (pair probe.now.side (row_seen row.now)) reader.old))) }
{
    let side = probe.side();
    let mut other = Vec::new(alloc);
    while reader.read_into(&mut other)? {
        push_pair(alloc, side, steps, row, other.as_slice(), out)?;
    }
    Ok(())
}

// Pushes a row of this side and one of the other as one.
fn push_pair<C: Collector>(
    alloc: Global,
    side: Side,
    steps: &[&Op],
    row: &[ValueRef],
    other: &[ValueRef],
    out: &mut C,
) -> Result<(), NoMemory>
    requires row { AllByRecursion ValueFits (row_seen row.now) }
    requires other { AllByRecursion ValueFits (row_seen other.now) }
    requires narrow { length row.now + length other.now ≤ width_limit }
    requires steps { StepsFit (length row.now + length other.now) (ops_of steps.now)
        (C.width out.old) }
    ensures width { C.width out.new ≡ C.width out.old }
    ensures kept { C.kept out.new ≡ C.kept out.old }
    ensures takes { OnOk result (Collects C.holds out.old out.new (chained (ops_of steps.now)
        (pair side (row_seen row.now) (row_seen other.now) ∷ []))) }
{
    let made = paired(alloc, side, row, other)?;
    push_row(alloc, steps, made.as_slice(), out)
}
