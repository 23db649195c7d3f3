//! The columns of a source.
ghost use Rattle.std.specs.Prelude.{◌≡◌, map, option_map, IfOk};
ghost use Rattle.serde_json.specs.View.{view};
ghost use Rattle.job_json.specs.Faults.{Gives};
ghost use Rattle.job_json.specs.Members.{each};
ghost use Rattle.job_json.specs.Parts.{kind_in, column_in, columns_of};

use crate::json_shape::{matches_text, two_items};
use crate::names::read_name;
use crate::node_reader::NodeReader;
use crate::{JobError, JobFaultKind};
use plan_model::{Column, Kind, Schema};
use row_core::NoMemory;
use serde_json::Value;
use std::alloc::Global;

/// The columns of a source, at least one.
#[tactic(auto, unfolding(crate::specs::Parts::columns_of))]
pub fn read_columns(reader: NodeReader, node: &Value) -> Result<Schema, JobError>
    ensures { Gives (λ x. x) result (columns_of reader.node (view node.now)) }
{
    let items = reader.list(node, "columns")?;
    if items.is_empty() {
        return Err(reader.fault(JobFaultKind::BadMember, "columns"));
    }
    let Some(columns) = columns_from(reader.alloc, items)? else {
        return Err(reader.fault(JobFaultKind::BadMember, "columns"));
    };
    reader.check_length(items)?;
    Ok(Schema::from_vec(columns))
}

fn columns_from(alloc: Global, items: &[Value]) -> Result<Option<Vec<Column>>, NoMemory>
    ensures { IfOk result (λ r. option_map (λ columns. columns.items) r
        ≡ each column_in (map view items.now)) }
{
    let mut columns = Vec::new(alloc);
    for item in items {
        let Some(column) = read_column(alloc, item)? else {
            return Ok(None);
        };
        columns.push(column)?;
    }
    Ok(Some(columns))
}

#[tactic(auto, unfolding(crate::specs::Parts::column_in))]
fn read_column(alloc: Global, value: &Value) -> Result<Option<Column>, NoMemory>
    ensures { IfOk result (λ column. column ≡ column_in (view value.now)) }
{
    let Some((name, kind)) = two_items(value) else {
        return Ok(None);
    };
    let Some(name) = read_name(alloc, name)? else {
        return Ok(None);
    };
    let Some(kind) = read_kind(kind) else {
        return Ok(None);
    };
    Ok(Some(Column { name, kind }))
}

#[tactic(auto, unfolding(crate::specs::Parts::kind_in))]
fn read_kind(value: &Value) -> Option<Kind>
    ensures { result ≡ kind_in (view value.now) }
{
    if matches_text(value, "int") {
        return Some(Kind::IntKind);
    }
    if matches_text(value, "text") {
        return Some(Kind::TextKind);
    }
    None
}
