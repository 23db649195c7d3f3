ghost use Rattle.std.specs.Prelude.{◌≡◌, length};
ghost use Rattle.hash_join.specs.Keys.{has_null as key_has_null};
ghost use Rattle.row_core.specs.Exprs.{is_null as value_is_null};
ghost use Rattle.row_view.specs.Views.{seen, row_seen};

use crate::build_table::BuildTable;
use crate::columns::key_columns;
use crate::rules::{Rule, rule_of};
use plan_model::{JoinKind, KeyPairs, Side};
use row_core::{Columns, NoMemory};
use row_steps::value_in;
use row_view::ValueRef;
use std::alloc::Global;

/// How the rows of one side of a join meet those of the other, which were built.
#[derive(Drop)]
pub struct Probe<'a> {
    table: &'a BuildTable,
    columns: Columns,
    side: Side,
    rule: Rule,
    ghost keyed: { length columns ≡ length table.now.keys },
}

impl<'a> Probe<'a> {
    ghost use Rattle.std.specs.Prelude.{List, IfOk, IfSome};
    ghost use Rattle.bag_laws.specs.Rows.{OneRow};
    ghost use Rattle.hash_join.specs.Keys.{columns_on, matching, other_side};
    ghost use Rattle.hash_join.specs.Rules.{rule_of as the_rule};
    ghost use Rattle.hash_join.specs.Spelled.{SpellsSome};
    ghost use Rattle.hash_join.specs.Tables.{HoldsTable, IsFound};
    ghost use Rattle.row_core.specs.Encoding.{values_bytes, RowFits};
    ghost use Rattle.row_core.specs.Hashing.{key_of};

    /// Rows of this side probe the built rows of the other, which have the other key columns.
    pub fn new(
        alloc: Global,
        kind: JoinKind,
        side: Side,
        keys: &KeyPairs,
        table: &'a BuildTable,
    ) -> Result<Self, NoMemory>
        requires { table.now.keys ≡ columns_on (other_side side) keys.now }
        ensures table { IfOk result (λ probe. probe.table.now ≡ table.now) }
        ensures columns { IfOk result (λ probe. probe.columns ≡ columns_on side keys.now) }
        ensures rule { IfOk result
            (λ probe. (probe.side ≡ side) × (probe.rule ≡ the_rule kind side)) }
    {
        let columns = key_columns(alloc, keys, side)?;
        let rule = rule_of(kind, side);
        Ok(Probe {
            table,
            columns,
            side,
            rule,
        })
    }

    pub(crate) fn table(&self) -> &BuildTable
        ensures { result.now ≡ self.now.table.now }
    {
        self.table
    }

    pub(crate) fn columns(&self) -> &[u32]
        ensures { result.now ≡ self.now.columns }
    {
        self.columns.as_slice()
    }

    pub(crate) fn rule(&self) -> Rule
        ensures { result ≡ self.now.rule }
    {
        self.rule
    }

    pub(crate) fn side(&self) -> Side
        ensures { result ≡ self.now.side }
    {
        self.side
    }

    /// The bytes of the rows that match this row, of whose key's values these are the bytes.
    pub(crate) fn find(&self, key: &[u8], row: &[ValueRef]) -> Option<&[u8]>
        requires row { RowFits (row_seen row.now) }
        requires key { key.now ≡ values_bytes (key_of self.now.columns (row_seen row.now)) }
        ensures spelled { IfSome result (λ bytes. SpellsSome self.now.table.now.width bytes.now) }
        ensures found { (built : List OneRow) → HoldsTable self.now.table.now built
            → IsFound self.now.table.now.width result
            (matching self.now.columns self.now.table.now.keys (row_seen row.now) built) }
    {
        if has_null(self.columns.as_slice(), row) {
            return None;
        }
        self.table.rows_of(key)
    }
}

// Whether a value of the row's key is Null.
fn has_null(columns: &[u32], row: &[ValueRef]) -> bool
    ensures { result ≡ key_has_null columns.now (row_seen row.now) }
{
    columns.iter().any(|column| is_null(value_in(row, *column)))
}

fn is_null(value: ValueRef) -> bool
    ensures { result ≡ value_is_null (seen value.entry) }
{
    matches!(value, ValueRef::Null)
}
