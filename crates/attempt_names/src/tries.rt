ghost use Rattle.std.specs.Prelude.{◌≡◌, OnErr, OnOk};
ghost use Rattle.attempt_names.specs.Tries.{SameTries, SetsTries, tries_of};
ghost use Rattle.estate.specs.declared.part_name.PartName.{PartName as Name};

use estate::PartName;
use row_core::NoMemory;
use std::alloc::Global;
use std::collections::BTreeMap;

/// How many attempts each subtask has had in each epoch, by the name of the first.
#[derive(Debug, Drop)]
pub struct Tries {
    map: BTreeMap<PartName, u32>,
}

impl Tries {
    pub fn new(alloc: Global) -> Self
        ensures { (first : Name) → tries_of result first ≡ 0 }
    {
        Tries {
            map: BTreeMap::new(alloc),
        }
    }

    pub fn get(&self, first: PartName) -> u32
        ensures { result ≡ tries_of self.now first }
    {
        match self.map.get(&first) {
            Some(count) => *count,
            None => 0,
        }
    }

    pub fn set(&mut self, first: PartName, count: u32) -> Result<(), NoMemory>
        ensures ok { OnOk result (SetsTries first count self.old self.new) }
        ensures err { OnErr result (SameTries self.old self.new) }
    {
        self.map.insert(first, count)?;
        Ok(())
    }
}
