ghost use Rattle.std.specs.Prelude.{◌≡◌, ◌++◌, List, ℕ, map, IfOk, OnOk};
ghost use Rattle.plan_model.specs.TableNames.{tables_of, each_once, source_table};

use crate::name_set::insert_name;
use crate::{Node, Op, Plan, TableNames};
use indexmap::IndexSet;
use row_core::{Bytes, NoMemory};
use std::alloc::Global;

/// The tables that a plan reads, each once, in the order of their first sources.
pub fn tables_of(alloc: Global, plan: &Plan) -> Result<TableNames, NoMemory>
    ensures { IfOk result (λ names. names ≡ tables_of plan.now) }
{
    let mut names = IndexSet::new(alloc);
    for node in plan.as_slice() {
        insert_source(&mut names, node)?;
    }
    let copies = copied(alloc, names.as_slice())?;
    Ok(TableNames::from_vec(copies))
}

/// Adds the table of a source, if the node is one.
fn insert_source<'a>(names: &mut IndexSet<&'a [u8]>, node: &'a Node) -> Result<(), NoMemory>
    ensures { OnOk result ((seen : List (List ℕ)) → map (λ key. key.now) names.old.keys
        ≡ each_once seen
        → map (λ key. key.now) names.new.keys ≡ each_once (seen ++ source_table node.now.op)) }
{
    if let Op::Source { table, .. } = &node.op {
        insert_name(names, table.as_slice())?;
    }
    Ok(())
}

fn copied(alloc: Global, names: &[&[u8]]) -> Result<Vec<Bytes>, NoMemory>
    ensures { IfOk result (λ copies. copies.items ≡ map (λ name. name.now) names.now) }
{
    let mut copies = Vec::with_capacity(alloc, names.len())?;
    for name in names {
        copies.push(Bytes::from_slice(alloc, name)?)?;
    }
    Ok(copies)
}
