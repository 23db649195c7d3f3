ghost use Rattle.std.specs.Prelude.{◌≤◌, length};
ghost use Rattle.std.specs.List.{AllByRecursion};
ghost use Rattle.hash_join.specs.Once.{all_spelled_once};
ghost use Rattle.hash_join.specs.Spelled.{SpellsSome};

use row_core::{Bytes, Columns};
use row_set::ByteSet;

/// The rows of a join's build side by their keys, to be probed.
#[derive(Drop)]
pub struct BuildTable {
    width: u32,
    keys: Columns,
    places: ByteSet,
    groups: Vec<Bytes>,
    ghost told: { length places ≤ length groups.items },
    ghost spelled: { AllByRecursion (SpellsSome width) groups.items } by { all_spelled_once width groups.items },
}

impl BuildTable {
    ghost use Rattle.std.specs.Prelude.{◌≡◌, List, IfSome};
    ghost use Rattle.bag_laws.specs.Rows.{OneRow};
    ghost use Rattle.hash_join.specs.Tables.{HoldsTable, IsFound};
    ghost use Rattle.plan_model.specs.Operators.{rows_with};
    ghost use Rattle.row_core.specs.Encoding.{values_bytes};
    ghost use Rattle.row_groups.specs.Held.{KeyFits};

    pub(crate) fn new(width: u32, keys: Columns, places: ByteSet, groups: Vec<Bytes>) -> Self
        requires told { length places ≤ length groups.items }
        requires spelled { AllByRecursion (SpellsSome width) groups.items }
        ensures width { result.width ≡ width }
        ensures keys { result.keys ≡ keys }
        ensures places { result.places ≡ places }
        ensures groups { result.groups.items ≡ groups.items }
    {
        BuildTable {
            width,
            keys,
            places,
            groups,
        }
    }

    /// How many values its rows have.
    pub fn width(&self) -> u32
        ensures { result ≡ self.now.width }
    {
        self.width
    }

    /// The bytes of the rows with a key, of whose values these are the bytes.
    pub(crate) fn rows_of(&self, key: &[u8]) -> Option<&[u8]>
        ensures spelled { IfSome result (λ bytes. SpellsSome self.now.width bytes.now) }
        ensures found { (rows : List OneRow) (values : OneRow) → HoldsTable self.now rows
            → KeyFits (length self.now.keys) values → key.now ≡ values_bytes values
            → IsFound self.now.width result (rows_with self.now.keys values rows) }
    {
        match self.places.place_of(key) {
            Some(place) => Some(self.groups[place].as_slice()),
            None => None,
        }
    }
}
