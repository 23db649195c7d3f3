ghost use Rattle.std.specs.Prelude.{◌≡◌, ◌↔◌, None, Some, IfOk, OnOk, OnErr, IsSome, Contains};
ghost use Rattle.estate.specs.declared.part_name.PartName.{PartName as Name};
ghost use Rattle.estate.specs.Parts.{IsAscending};
ghost use Rattle.std.specs.BTreeMap.{keys, IsOrdered};
ghost use Rattle.estate.specs.Places.{place_of, name_cmp, SetsPlace, SamePlaces};

use crate::{Names, PartName};
use row_core::NoMemory;
use std::alloc::Global;
use std::collections::BTreeMap;

/// Where parts stand, by their names.
#[derive(Debug, Drop)]
pub struct Places {
    map: BTreeMap<PartName, usize>,
}

impl Places {
    pub fn new(alloc: Global) -> Self
        ensures { (name : Name) → place_of result name ≡ None }
    {
        Places {
            map: BTreeMap::new(alloc),
        }
    }

    pub fn get(&self, name: PartName) -> Option<usize>
        ensures { result ≡ place_of self.now name }
    {
        self.map.get(&name).copied()
    }

    pub fn insert(&mut self, name: PartName, place: usize) -> Result<(), NoMemory>
        ensures ok { OnOk result (SetsPlace name (Some place) self.old self.new) }
        ensures err { OnErr result (SamePlaces self.old self.new) }
    {
        self.map.insert(name, place)?;
        Ok(())
    }

    pub fn remove(&mut self, name: PartName)
        ensures { SetsPlace name None self.old self.new }
    {
        self.map.remove(&name);
    }

    /// The names, in ascending order.
    pub fn names(&self, alloc: Global) -> Result<Names, NoMemory>
        ensures ascending { IfOk result IsAscending }
        ensures names { IfOk result (λ names. (name : Name) →
            Contains names name ↔ IsSome (place_of self.now name)) }
    {
        Ok(Names::from_vec(copied_keys(alloc, &self.map)?))
    }
}

fn copied_keys(alloc: Global, map: &BTreeMap<PartName, usize>) -> Result<Vec<PartName>, NoMemory>
    ensures keys { IfOk result (λ names. names.items ≡ keys map.now) }
    ensures ordered { IsOrdered name_cmp map.now }
{
    map.keys().copied().collect(alloc)
}
