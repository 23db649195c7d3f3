ghost use Rattle.std.specs.Prelude.{◌≡◌, length, IfOk, IsTrue};
ghost use Rattle.row_core.specs.Exprs.{is_null, truth_of, compared, pred_within, is_yes};
ghost use Rattle.row_view.specs.Views.{seen, row_seen};

use crate::ValueRef;
use crate::evaluating::evaluate;
use row_core::{Cmp, NoMemory, Pred, Truth};
use std::alloc::Global;

/// Whether a test says Yes at a row.
pub fn holds_at(alloc: Global, test: &Pred, row: &[ValueRef]) -> Result<bool, NoMemory>
    requires { IsTrue (pred_within (length row.now) test.now) }
    ensures { IfOk result (λ yes. yes ≡ is_yes (truth_of (row_seen row.now) test.now)) }
{
    Ok(truth_at(alloc, test, row)? == Truth::Yes)
}

fn truth_at<'a>(alloc: Global, test: &'a Pred, row: &[ValueRef<'a>]) -> Result<Truth, NoMemory>
    requires { IsTrue (pred_within (length row.now) test.now) }
    ensures { IfOk result (λ truth. truth ≡ truth_of (row_seen row.now) test.now) }
{
    match test {
        Pred::Test(cmp, a, b) => {
            let a = evaluate(alloc, a, row)?;
            let b = evaluate(alloc, b, row)?;
            Ok(compare(*cmp, a.value(), b.value()))
        }
        Pred::IsNull(a) => {
            let a = evaluate(alloc, a, row)?;
            Ok(Truth::of(matches_null(a.value())))
        }
        Pred::And(a, b) => {
            let a = truth_at(alloc, a.get(), row)?;
            let b = truth_at(alloc, b.get(), row)?;
            Ok(a.and(b))
        }
        Pred::Or(a, b) => {
            let a = truth_at(alloc, a.get(), row)?;
            let b = truth_at(alloc, b.get(), row)?;
            Ok(a.or(b))
        }
        Pred::Not(a) => {
            let a = truth_at(alloc, a.get(), row)?;
            Ok(a.not())
        }
    }
}

fn matches_null(value: ValueRef) -> bool
    ensures { result ≡ is_null (seen value.entry) }
{
    matches!(value, ValueRef::Null)
}

fn compare(cmp: Cmp, a: ValueRef, b: ValueRef) -> Truth
    ensures { result ≡ compared cmp (seen a.entry) (seen b.entry) }
{
    if matches_null(a) || matches_null(b) {
        return Truth::Unknown;
    }
    Truth::of(cmp.passes(a.cmp(b)))
}
