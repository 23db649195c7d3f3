ghost use Rattle.std.specs.Prelude.{◌≡◌, not, map, IfOk, OnOk};
ghost use Rattle.std.specs.List.{list_any};
ghost use Rattle.std.specs.Str.{bytes_eq};
ghost use Rattle.indexmap.specs.IndexSet.{insert_key};

use indexmap::IndexSet;
use row_core::NoMemory;

/// Adds a name, and tells whether it is new.
pub fn insert_name<'a>(names: &mut IndexSet<&'a [u8]>, name: &'a [u8]) -> Result<bool, NoMemory>
    ensures fresh { IfOk result (λ fresh. fresh ≡ not (list_any (bytes_eq name.now) (map
        (λ key. key.now) names.old.keys))) }
    ensures names { OnOk result (map (λ key. key.now) names.new.keys
        ≡ insert_key bytes_eq (map (λ key. key.now) names.old.keys) name.now) }
{
    Ok(names.insert(name)?)
}
