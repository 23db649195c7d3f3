ghost use Rattle.std.specs.Prelude.{◌∷◌, [], All, IsTrue, length};
ghost use Rattle.plan_model.specs.Checks.{columns_fit};
ghost use Rattle.plan_model.specs.Operators.{is_unary};

use op_unary::apply;
use plan_model::{Agg, Aggs, Exprs, Op};
use row_core::{Columns, Expr, NoMemory, Row, Rows, Value};
use std::alloc::Global;
use std::process::Abort;
use std::test::Fail;

// A row of each pair.
fn rows_of(alloc: Global, pairs: &[(i64, i64)]) -> Result<Rows, NoMemory> {
    let mut rows = Rows::new(alloc);
    for (first, second) in pairs {
        let values = vec![in alloc; Value::Int(*first), Value::Int(*second)]?;
        rows.push(Row::from_vec(values))?;
    }
    Ok(rows)
}

// Whether each row has the columns that the operator names.
fn fits(op: &Op, rows: &[Row]) -> bool
    ensures { IsTrue result → All (λ row. IsTrue (columns_fit op.now (length row ∷ []))) rows.now }
{
    rows.iter().all(|row| row.len() < 1000 && op.columns_fit(&[row.len() as u32]))
}

// How many rows the operator gives on three.
fn check(rt: &impl Abort, alloc: Global, op: &Op, count: usize) -> Result<(), NoMemory>
    requires { IsTrue (is_unary op.now) }
{
    let rows = rows_of(alloc, &[(1, 12), (1, 12), (2, 3)])?;
    assert!(rt; fits(op, rows.as_slice()));
    assert_eq!(rt; apply(alloc, op, &rows)?.len(), count);
    Ok(())
}

#[test]
fn operators_give_as_many_rows(rt: HostRuntime) -> Result<(), Fail> {
    let alloc = rt.alloc();
    let exprs = Exprs::from_vec(vec![in alloc; Expr::Col(1)]?);
    check(&rt, alloc, &Op::Project { exprs }, 3)?;
    let explode = Op::Explode {
        column: 1,
        separator: b'1',
    };
    check(&rt, alloc, &explode, 5)?;
    let keys = Columns::from_vec(vec![in alloc; 0]?);
    let aggs = Aggs::from_vec(vec![in alloc; Agg::Count, Agg::Sum(1), Agg::Min(1), Agg::Max(1)]?);
    check(&rt, alloc, &Op::Aggregate { keys, aggs }, 2)?;
    Ok(())
}
