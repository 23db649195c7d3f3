ghost use Rattle.std.specs.Prelude.{◌≡◌, ◌<◌, ◌≤◌, ◌++◌, [], get_or, length, slice_set, OnOk};
ghost use Rattle.std.specs.List.{AllByRecursion};
ghost use Rattle.row_core.specs.Encoding.{row_bytes, TextFits};
ghost use Rattle.row_core.specs.Values.{width_limit};
ghost use Rattle.row_view.specs.Views.{row_seen};

use crate::build_table::BuildTable;
use row_collector::Collector;
use row_core::{Bytes, Columns, NoMemory};
use row_groups::put_key;
use row_set::{ByteSet, emptied};
use row_view::{ValueRef, put_row};
use std::alloc::Global;
use std::mem;

/// The rows of a join's build side, as they come: the bytes of those with one key stand together. A
/// key is found by the bytes of its values.
#[derive(Drop)]
pub struct BuildRows {
    alloc: Global,
    width: u32,
    keys: Columns,
    // room for the bytes of a key
    room: Bytes,
    places: ByteSet,
    groups: Vec<Bytes>,
    ghost told: { length places ≤ length groups.items },
}

impl BuildRows {
    ghost use Rattle.std.specs.Prelude.{◌∷◌, false, List};
    ghost use Rattle.std.specs.List.{list_any};
    ghost use Rattle.std.specs.Str.{bytes_eq};
    ghost use Rattle.bag_laws.specs.Rows.{OneRow};
    ghost use Rattle.hash_join.specs.Held.{HoldsRows};
    ghost use Rattle.hash_join.specs.Tables.{HoldsTable};
    ghost use Rattle.row_collector.specs.Collecting.{Collects};
    ghost use Rattle.row_core.specs.Encoding.{values_bytes};
    ghost use Rattle.row_core.specs.Hashing.{key_of};
    ghost use Rattle.row_view.specs.Encoded.{RowOf};

    /// No rows yet, of this width, with these key columns.
    pub fn new(alloc: Global, width: u32, keys: Columns) -> Self
        ensures width { result.width ≡ width }
        ensures keys { result.keys ≡ keys }
        ensures none { HoldsRows result [] }
    {
        BuildRows {
            alloc,
            width,
            keys,
            room: Bytes::new(alloc),
            places: ByteSet::new(alloc),
            groups: Vec::new(alloc),
        }
    }

    /// The rows, to be probed.
    pub fn finish(self) -> BuildTable
        requires { (rows : List OneRow) × HoldsRows self rows }
        ensures width { result.width ≡ self.width }
        ensures keys { result.keys ≡ self.keys }
        ensures holds { (rows : List OneRow) → HoldsRows self rows → HoldsTable result rows }
    {
        BuildTable::new(self.width, self.keys, self.places, self.groups)
    }

    // Adds a row to those of its key, of whose values these are the bytes.
    fn add(&mut self, key: &[u8], row: &[ValueRef]) -> Result<(), NoMemory>
        requires row { RowOf self.old.width (row_seen row.now) }
        requires key { key.now ≡ values_bytes (key_of self.old.keys (row_seen row.now)) }
        ensures width { self.new.width ≡ self.old.width }
        ensures keys { self.new.keys ≡ self.old.keys }
        ensures takes { OnOk result (Collects HoldsRows self.old self.new (row_seen row.now ∷ [])) }
    {
        let Some(place) = self.places.place_of(key) else {
            return self.begin(key, row);
        };
        put_at(&mut self.groups, place, row)?;
        Ok(())
    }

    // Adds the first row of a key.
    fn begin(&mut self, key: &[u8], row: &[ValueRef]) -> Result<(), NoMemory>
        requires row { RowOf self.old.width (row_seen row.now) }
        requires key { key.now ≡ values_bytes (key_of self.old.keys (row_seen row.now)) }
        requires new { list_any (bytes_eq key.now) self.old.places ≡ false }
        ensures width { self.new.width ≡ self.old.width }
        ensures keys { self.new.keys ≡ self.old.keys }
        ensures takes { OnOk result (Collects HoldsRows self.old self.new (row_seen row.now ∷ [])) }
    {
        let mut bytes = Bytes::new(self.alloc);
        put_row(&mut bytes, row)?;
        self.groups.push(bytes)?;
        self.places.insert(key)?;
        Ok(())
    }
}

impl Collector for BuildRows {
    ghost use Rattle.std.specs.Prelude.{ℕ, List};
    ghost use Rattle.hash_join.specs.Held.{HoldsRows};

    ghost width = { λ built. built.width };

    ghost Kept = { List ℕ };

    ghost kept = { λ built. built.keys };

    ghost holds = { HoldsRows };

    fn collect(&mut self, row: &[ValueRef]) -> Result<(), NoMemory> {
        let room = mem::replace(&mut self.room, Bytes::new(self.alloc));
        let mut key = emptied(room);
        put_key(&mut key, self.keys.as_slice(), row)?;
        self.add(key.as_slice(), row)?;
        self.room = key;
        Ok(())
    }
}

// Adds the row's bytes at a place.
fn put_at(groups: &mut Vec<Bytes>, place: usize, row: &[ValueRef]) -> Result<(), NoMemory>
    requires place { place < length groups.old.items }
    requires width { length row.now ≤ width_limit }
    requires texts { AllByRecursion TextFits (row_seen row.now) }
    ensures count { length groups.new.items ≡ length groups.old.items }
    ensures put { OnOk result (groups.new.items ≡ slice_set groups.old.items place
        (get_or groups.old.items place [] ++ row_bytes (row_seen row.now))) }
{
    put_row(&mut groups[place], row)
}
