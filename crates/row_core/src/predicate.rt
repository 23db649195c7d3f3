ghost use Rattle.std.specs.Prelude.{◌≡◌, length, IfOk, IsTrue};
ghost use Rattle.row_core.specs.Exprs.{is_null, truth_of, compared, pred_within, is_yes};

use crate::evaluation::evaluate;
use crate::{Cmp, NoMemory, Pred, Row, Truth, Value};
use std::alloc::Global;

/// Whether a test says Yes at a row.
pub fn holds(alloc: Global, test: &Pred, row: &Row) -> Result<bool, NoMemory>
    requires { IsTrue (pred_within (length row.now) test.now) }
    ensures { IfOk result (λ yes. yes ≡ is_yes (truth_of row.now test.now)) }
{
    let truth = truth_at(alloc, test, row)?;
    Ok(truth == Truth::Yes)
}

fn truth_at(alloc: Global, test: &Pred, row: &Row) -> Result<Truth, NoMemory>
    requires { IsTrue (pred_within (length row.now) test.now) }
    ensures { IfOk result (λ truth. truth ≡ truth_of row.now test.now) }
{
    match test {
        Pred::Test(cmp, a, b) => {
            let a = evaluate(alloc, a, row)?;
            let b = evaluate(alloc, b, row)?;
            Ok(compare(*cmp, a.value(), b.value()))
        }
        Pred::IsNull(a) => {
            let a = evaluate(alloc, a, row)?;
            Ok(Truth::of(matches_null(a.value())))
        }
        Pred::And(a, b) => {
            let a = truth_at(alloc, a.get(), row)?;
            let b = truth_at(alloc, b.get(), row)?;
            Ok(a.and(b))
        }
        Pred::Or(a, b) => {
            let a = truth_at(alloc, a.get(), row)?;
            let b = truth_at(alloc, b.get(), row)?;
            Ok(a.or(b))
        }
        Pred::Not(a) => {
            let a = truth_at(alloc, a.get(), row)?;
            Ok(a.not())
        }
    }
}

fn matches_null(value: &Value) -> bool
    ensures { result ≡ is_null value.now }
{
    matches!(value, Value::Null)
}

fn compare(cmp: Cmp, a: &Value, b: &Value) -> Truth
    ensures { result ≡ compared cmp a.now b.now }
{
    if matches_null(a) || matches_null(b) {
        return Truth::Unknown;
    }
    Truth::of(cmp.passes(a.cmp(b)))
}
