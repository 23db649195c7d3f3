ghost use Rattle.std.specs.Prelude.{◌≡◌, ◌<◌, [], ◌∷◌, ◌++◌, get_or, length, map, slice_set, IfOk, OnOk, List};
ghost use Rattle.bag_laws.specs.Rows.{OneRow};
ghost use Rattle.row_groups.specs.Accumulators.{accumulator_of, input_of, states_of, with_value};
ghost use Rattle.row_view.specs.Views.{seen, row_seen};

use crate::accumulator::Accumulator;
use plan_model::Agg;
use row_core::NoMemory;
use row_steps::value_in;
use row_view::ValueRef;
use std::alloc::Global;
use std::mem;

/// The accumulators over one row.
pub fn first_states(
    alloc: Global,
    aggs: &[Agg],
    row: &[ValueRef],
) -> Result<Vec<Accumulator>, NoMemory>
    ensures { IfOk result
        (λ made. made.items ≡ map (accumulator_of (row_seen row.now ∷ [])) aggs.now) }
{
    let mut states = no_rows(alloc, aggs)?;
    add_row(alloc, aggs, &mut states, row)?;
    Ok(states)
}

/// Adds a row to the accumulators at a place.
pub fn add_at(
    alloc: Global,
    aggs: &[Agg],
    groups: &mut Vec<Vec<Accumulator>>,
    place: usize,
    row: &[ValueRef],
) -> Result<(), NoMemory>
    requires { place < length groups.old.items }
    ensures count { length groups.new.items ≡ length groups.old.items }
    ensures takes { (rows : List OneRow)
        → get_or (states_of groups.old.items) place [] ≡ map (accumulator_of rows) aggs.now
        → OnOk result (states_of groups.new.items ≡ slice_set (states_of groups.old.items) place
        (map (accumulator_of (rows ++ row_seen row.now ∷ [])) aggs.now)) }
{
    add_row(alloc, aggs, &mut groups[place], row)?;
    Ok(())
}

// The accumulators over no row.
fn no_rows(alloc: Global, aggs: &[Agg]) -> Result<Vec<Accumulator>, NoMemory>
    ensures { IfOk result (λ made. made.items ≡ map (accumulator_of []) aggs.now) }
{
    let mut made = Vec::with_capacity(alloc, aggs.len())?;
    for agg in aggs {
        made.push(Accumulator::new(*agg))?;
    }
    Ok(made)
}

// Adds a row to the accumulators of these aggregates.
fn add_row(
    alloc: Global,
    aggs: &[Agg],
    states: &mut Vec<Accumulator>,
    row: &[ValueRef],
) -> Result<(), NoMemory>
    ensures { (rows : List OneRow) → states.old.items ≡ map (accumulator_of rows) aggs.now
        → OnOk result
        (states.new.items ≡ map (accumulator_of (rows ++ row_seen row.now ∷ [])) aggs.now) }
{
    for place in 0..aggs.len().min(states.len()) {
        add_value(alloc, &mut states[place], input_of(aggs[place], row))?;
    }
    Ok(())
}

// Adds a value to an accumulator.
fn add_value(alloc: Global, state: &mut Accumulator, value: ValueRef) -> Result<(), NoMemory>
    ensures { OnOk result (state.new ≡ with_value state.old (seen value.entry)) }
{
    let was = mem::replace(state, Accumulator::Counted(0));
    *state = was.with_value(alloc, value)?;
    Ok(())
}

// The value that an aggregate takes of a row.
fn input_of<'a>(agg: Agg, row: &[ValueRef<'a>]) -> ValueRef<'a>
    ensures { seen result ≡ input_of (row_seen row.now) agg }
{
    match agg {
        Agg::Count => ValueRef::Null,
        Agg::Sum(column) | Agg::Min(column) | Agg::Max(column) => value_in(row, column),
    }
}
