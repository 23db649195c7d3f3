ghost use Rattle.std.specs.Prelude.{◌≤◌, ◌+◌, length};
ghost use Rattle.row_core.specs.Values.{width_limit};

use crate::accumulator::Accumulator;
use crate::key_bytes::put_key;
use crate::states::{add_at, first_states};
use crate::written::write_groups;
use plan_model::Agg;
use row_collector::Collector;
use row_core::{Bytes, NoMemory};
use row_set::{ByteSet, emptied};
use row_view::{EncodedRows, ValueRef, rows_stop_once};
use std::alloc::Global;
use std::mem;

/// The accumulators of an aggregate, for each key those of its rows. A key is found by the bytes of
/// its values.
#[derive(Drop)]
pub struct Groups<'a> {
    alloc: Global,
    width: u32,
    keys: &'a [u32],
    aggs: &'a [Agg],
    // room for the bytes of a key
    room: Bytes,
    places: ByteSet,
    states: Vec<Vec<Accumulator>>,
    ghost narrow: { length keys.now + length aggs.now ≤ width_limit },
    ghost told: { length places ≤ length states.items },
}

impl<'a> Groups<'a> {
    ghost use Rattle.std.specs.Prelude.{◌≡◌, [], ◌∷◌, false, List, IfOk, OnOk};
    ghost use Rattle.std.specs.List.{list_any};
    ghost use Rattle.std.specs.Str.{bytes_eq};
    ghost use Rattle.bag_laws.specs.Rows.{OneRow};
    ghost use Rattle.plan_model.specs.Operators.{aggregated, key_of};
    ghost use Rattle.row_collector.specs.Collecting.{Collects};
    ghost use Rattle.row_core.specs.Encoding.{values_bytes};
    ghost use Rattle.row_groups.specs.Held.{HoldsGroups};
    ghost use Rattle.row_view.specs.Encoded.{RowOf};
    ghost use Rattle.row_view.specs.Views.{row_seen};

    /// No groups yet, of rows of this width.
    pub fn new(alloc: Global, width: u32, keys: &'a [u32], aggs: &'a [Agg]) -> Self
        requires { length keys.now + length aggs.now ≤ width_limit }
        ensures width { result.width ≡ width }
        ensures by { result.keys.now ≡ keys.now }
        ensures over { result.aggs.now ≡ aggs.now }
        ensures none { HoldsGroups result [] }
    {
        Groups {
            alloc,
            width,
            keys,
            aggs,
            room: Bytes::new(alloc),
            places: ByteSet::new(alloc),
            states: Vec::new(alloc),
        }
    }

    /// A row for each key, in the order in which they first came: the key, then the aggregates of
    /// its rows.
    pub fn into_rows(self) -> Result<EncodedRows, NoMemory>
        requires { (rows : List OneRow) × HoldsGroups self rows }
        ensures { (rows : List OneRow) → HoldsGroups self.entry rows
            → IfOk result (λ made. made ≡ aggregated self.entry.keys.now self.entry.aggs.now rows) }
    {
        rows_stop_once();
        let width = (self.keys.len() + self.aggs.len()) as u16;
        let bytes = write_groups(self.alloc, width, &self.places, self.states.as_slice())?;
        match EncodedRows::check(bytes, u32::from(width)) {
            Ok(rows) => Ok(rows),
            Err(_) => unreachable!(),
        }
    }

    // Adds a row to the group of its key, of whose values these are the bytes.
    fn add(&mut self, key: &[u8], row: &[ValueRef]) -> Result<(), NoMemory>
        requires row { RowOf self.old.width (row_seen row.now) }
        requires key { key.now ≡ values_bytes (key_of self.old.keys.now (row_seen row.now)) }
        ensures width { self.new.width ≡ self.old.width }
        ensures by { self.new.keys.now ≡ self.old.keys.now }
        ensures over { self.new.aggs.now ≡ self.old.aggs.now }
        ensures takes { OnOk result
            (Collects HoldsGroups self.old self.new (row_seen row.now ∷ [])) }
    {
        let Some(place) = self.places.place_of(key) else {
            return self.begin(key, row);
        };
        add_at(self.alloc, self.aggs, &mut self.states, place, row)?;
        Ok(())
    }

    // Begins the group of a new key with a row.
    fn begin(&mut self, key: &[u8], row: &[ValueRef]) -> Result<(), NoMemory>
        requires row { RowOf self.old.width (row_seen row.now) }
        requires key { key.now ≡ values_bytes (key_of self.old.keys.now (row_seen row.now)) }
        requires new { list_any (bytes_eq key.now) self.old.places ≡ false }
        ensures width { self.new.width ≡ self.old.width }
        ensures by { self.new.keys.now ≡ self.old.keys.now }
        ensures over { self.new.aggs.now ≡ self.old.aggs.now }
        ensures takes { OnOk result
            (Collects HoldsGroups self.old self.new (row_seen row.now ∷ [])) }
    {
        let states = first_states(self.alloc, self.aggs, row)?;
        self.states.push(states)?;
        self.places.insert(key)?;
        Ok(())
    }
}

impl<'a> Collector for Groups<'a> {
    ghost use Rattle.std.specs.Prelude.{ℕ, List};
    ghost use Rattle.plan_model.specs.declared.agg.Agg.{Agg as OneAgg};
    ghost use Rattle.row_groups.specs.Held.{HoldsGroups};

    ghost width = { λ groups. groups.width };

    ghost Kept = { List ℕ × List OneAgg };

    ghost kept = { λ groups. (groups.keys.now, groups.aggs.now) };

    ghost holds = { HoldsGroups };

    fn collect(&mut self, row: &[ValueRef]) -> Result<(), NoMemory> {
        let room = mem::replace(&mut self.room, Bytes::new(self.alloc));
        let mut key = emptied(room);
        put_key(&mut key, self.keys, row)?;
        self.add(key.as_slice(), row)?;
        self.room = key;
        Ok(())
    }
}
