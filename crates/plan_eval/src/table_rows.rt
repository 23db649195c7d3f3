ghost use Rattle.std.specs.Prelude.{◌≡◌, [], MatchOption};
ghost use Rattle.plan_eval.specs.Tables.{files_of};

use crate::{Files, TableFiles};
use row_core::Bytes;
use std::marker::Model;

/// Tables with their files. Of several entries of one table the first counts, and a table that is
/// lacking has no files.
#[derive(Debug, Drop)]
pub struct TableRows {
    items: Vec<TableFiles>,
}

impl Model for TableRows {
    ghost use Rattle.std.specs.Prelude.{List};
    ghost use Rattle.plan_eval.specs.declared.table_files.TableFiles.{TableFiles};

    ghost Value = { List TableFiles };

    ghost view = { λ list. list.items.items };
}

impl TableRows {
    pub fn from_vec(items: Vec<TableFiles>) -> Self
        ensures { result ≡ items.items }
    {
        TableRows { items }
    }

    pub fn into_vec(self) -> Vec<TableFiles>
        ensures { result.items ≡ self }
    {
        self.items
    }

    pub fn as_slice(&self) -> &[TableFiles]
        ensures { result.now ≡ self.now }
    {
        self.items.as_slice()
    }
}

/// The files of the first entry of a table, none where there is no entry.
pub fn files_in<'a>(tables: &'a [TableFiles], name: &Bytes) -> Option<&'a Files>
    ensures { MatchOption result (files_of tables.now name.now ≡ []) (λ files. files.now
        ≡ files_of tables.now name.now) }
{
    for table in tables {
        if table.table.equals(name) {
            return Some(&table.rows);
        }
    }
    None
}
