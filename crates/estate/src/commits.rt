ghost use Rattle.std.specs.Prelude.{◌≡◌, [], ◌∷◌, ◌++◌, IfOk, OnOk, OnErr};

use crate::Commit;
use row_core::NoMemory;
use std::alloc::Global;
use std::marker::Model;

/// Commits, the earliest first.
#[derive(Debug, Drop)]
pub struct Commits {
    items: Vec<Commit>,
}

impl Model for Commits {
    ghost use Rattle.std.specs.Prelude.{List};
    ghost use Rattle.estate.specs.declared.commit.Commit.{Commit};

    ghost Value = { List Commit };

    ghost view = { λ list. list.items.items };
}

impl Commits {
    pub fn new(alloc: Global) -> Self
        ensures { result ≡ [] }
    {
        Commits {
            items: Vec::new(alloc),
        }
    }

    pub fn from_vec(items: Vec<Commit>) -> Self
        ensures { result ≡ items.items }
    {
        Commits { items }
    }

    pub fn into_vec(self) -> Vec<Commit>
        ensures { result.items ≡ self }
    {
        self.items
    }

    pub fn as_slice(&self) -> &[Commit]
        ensures { result.now ≡ self.now }
    {
        self.items.as_slice()
    }

    pub fn push(&mut self, item: Commit) -> Result<(), NoMemory>
        ensures ok { OnOk result (self.new ≡ self.old ++ item ∷ []) }
        ensures err { OnErr result (self.new ≡ self.old) }
    {
        self.items.push(item)?;
        Ok(())
    }
}
