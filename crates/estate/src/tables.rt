ghost use Rattle.std.specs.Prelude.{◌≡◌, [], ◌∷◌, ◌++◌, IfOk, OnOk, OnErr};

use crate::Table;
use row_core::NoMemory;
use std::alloc::Global;
use std::marker::Model;

/// Tables with their files. Of several entries of one table the first counts.
#[derive(Debug, Drop)]
pub struct Tables {
    items: Vec<Table>,
}

impl Model for Tables {
    ghost use Rattle.std.specs.Prelude.{List};
    ghost use Rattle.estate.specs.declared.table.Table.{Table};

    ghost Value = { List Table };

    ghost view = { λ list. list.items.items };
}

impl Tables {
    pub fn new(alloc: Global) -> Self
        ensures { result ≡ [] }
    {
        Tables {
            items: Vec::new(alloc),
        }
    }

    pub fn from_vec(items: Vec<Table>) -> Self
        ensures { result ≡ items.items }
    {
        Tables { items }
    }

    pub fn into_vec(self) -> Vec<Table>
        ensures { result.items ≡ self }
    {
        self.items
    }

    pub fn as_slice(&self) -> &[Table]
        ensures { result.now ≡ self.now }
    {
        self.items.as_slice()
    }

    pub fn push(&mut self, item: Table) -> Result<(), NoMemory>
        ensures ok { OnOk result (self.new ≡ self.old ++ item ∷ []) }
        ensures err { OnErr result (self.new ≡ self.old) }
    {
        self.items.push(item)?;
        Ok(())
    }

    pub fn copy(&self, alloc: Global) -> Result<Tables, NoMemory>
        ensures { IfOk result (λ made. made ≡ self.now) }
    {
        let mut made = Tables::new(alloc);
        for table in self.items.as_slice() {
            made.push(table.copy(alloc)?)?;
        }
        Ok(made)
    }
}
