//! The test of a filter, and the expressions of a project node.
ghost use Rattle.std.specs.Prelude.{◌≡◌, [], ◌∷◌, map, option_map, IfOk, IfSome, IsTrue};
ghost use Rattle.std.specs.List.{list_all, list_any};
ghost use Rattle.serde_json.specs.View.{view};
ghost use Rattle.expr_json.specs.BadNumbers.{bad_number_in};
ghost use Rattle.expr_json.specs.Ranges.{has_utf8_texts, test_has_utf8_texts};
ghost use Rattle.expr_json.specs.Reading.{expr_of};
ghost use Rattle.job_json.specs.Faults.{Gives};
ghost use Rattle.job_json.specs.Members.{each};
ghost use Rattle.job_json.specs.Parts.{exprs_of, where_of, not_deep, too_deep_among};

use crate::node_reader::NodeReader;
use crate::{JobError, JobFaultKind};
use expr_json::{has_bad_number, list_depth, read_expr, read_test};
use plan_model::Exprs;
use row_core::{Expr, NoMemory, Pred};
use serde_json::Value;
use std::alloc::Global;

/// The greatest number of lists that stand one within another in an expression or a test.
pub const DEPTH_LIMIT: u64 = 32;

/// The test of a filter.
#[tactic(auto, unfolding(crate::specs::Parts::where_of))]
pub fn read_where(reader: NodeReader, node: &Value) -> Result<Pred, JobError>
    ensures gives { Gives (λ x. x) result (where_of reader.node (view node.now)) }
    ensures texts { IfOk result (λ test. IsTrue (test_has_utf8_texts test)) }
{
    let value = reader.member(node, "where")?;
    check_depth(reader, value)?;
    if has_bad_number(value) {
        return Err(reader.fault(JobFaultKind::BadNumber, "where"));
    }
    match read_test(reader.alloc, value)? {
        Some(test) => Ok(test),
        None => Err(reader.fault(JobFaultKind::BadExpr, "where")),
    }
}

/// The expressions of a project node, at least one.
#[tactic(auto, unfolding(crate::specs::Parts::exprs_of))]
pub fn read_exprs(reader: NodeReader, node: &Value) -> Result<Exprs, JobError>
    ensures gives { Gives (λ x. x) result (exprs_of reader.node (view node.now)) }
    ensures texts { IfOk result (λ exprs. IsTrue (list_all has_utf8_texts exprs)) }
{
    let items = reader.list(node, "exprs")?;
    if items.is_empty() {
        return Err(reader.fault(JobFaultKind::BadMember, "exprs"));
    }
    reader.check_length(items)?;
    check_depths(reader, items)?;
    if has_bad_numbers(items) {
        return Err(reader.fault(JobFaultKind::BadNumber, "exprs"));
    }
    match exprs_from(reader.alloc, items)? {
        Some(exprs) => Ok(Exprs::from_vec(exprs)),
        None => Err(reader.fault(JobFaultKind::BadExpr, "exprs")),
    }
}

fn check_depth(reader: NodeReader, value: &Value) -> Result<(), JobError>
    ensures { Gives (λ _. tt) result (not_deep reader.node (too_deep_among (view value.now ∷ []))) }
{
    let depth = list_depth(value);
    if depth > DEPTH_LIMIT {
        return Err(reader.fault(JobFaultKind::TooMany(depth), "depth"));
    }
    Ok(())
}

fn check_depths(reader: NodeReader, values: &[Value]) -> Result<(), JobError>
    ensures { Gives (λ _. tt) result (not_deep reader.node (too_deep_among (map view values.now))) }
{
    for value in values {
        check_depth(reader, value)?;
    }
    Ok(())
}

fn has_bad_numbers(items: &[Value]) -> bool
    ensures { result ≡ list_any bad_number_in (map view items.now) }
{
    items.iter().any(|item| has_bad_number(item))
}

#[tactic(auto, using(crate::proofs::Shapes::list_all_more))]
fn exprs_from(alloc: Global, items: &[Value]) -> Result<Option<Vec<Expr>>, NoMemory>
    ensures reads { IfOk result (λ r. option_map (λ exprs. exprs.items) r
        ≡ each expr_of (map view items.now)) }
    ensures texts { IfOk result (λ r. IfSome r (λ exprs.
        IsTrue (list_all has_utf8_texts exprs.items))) }
{
    let mut exprs = Vec::new(alloc);
    for item in items {
        let Some(expr) = read_expr(alloc, item)? else {
            return Ok(None);
        };
        exprs.push(expr)?;
    }
    Ok(Some(exprs))
}
