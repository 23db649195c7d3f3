ghost use Rattle.std.specs.Prelude.{◌≡◌, [], ◌∷◌, pos, IfOk, IsTrue};
ghost use Rattle.row_core.specs.declared.value.Value.TheVariants.{Null, Int, Text};
ghost use Rattle.row_core.specs.Exprs.{columns_within, pred_within};

use row_core::{
    Bytes, Cmp, Columns, Expr, NoMemory, Pred, Row, Value, decode_rows, encode_row, eval, holds,
    key_hash,
};
use sqlite_items::Boxed;
use std::alloc::Global;
use std::test::Fail;

// 7, Null, and the text ab.
fn sample(alloc: Global) -> Result<Row, NoMemory>
    ensures { IfOk result (λ row. row ≡ Int (pos 7) ∷ Null ∷ Text (97 ∷ 98 ∷ []) ∷ []) }
{
    let text = Bytes::from_slice(alloc, &[97, 98])?;
    let mut row = Row::new(alloc);
    row.push(Value::Int(7))?;
    row.push(Value::Null)?;
    row.push(Value::Text(text))?;
    Ok(row)
}

const SAMPLE: &[u8] = &[0, 3, 1, 0, 0, 0, 0, 0, 0, 0, 7, 0, 2, 0, 0, 0, 2, 97, 98];

// The row's text behind -7.
fn joined(alloc: Global) -> Result<Expr, NoMemory>
    ensures { IfOk result (λ expr. IsTrue (columns_within 3 expr)) }
{
    let number = Boxed::new(alloc, Expr::Const(Value::Int(-7)))?;
    let column = Boxed::new(alloc, Expr::Col(2))?;
    Ok(Expr::Concat(number, column))
}

// Whether that is the text -7ab.
fn is_joined(alloc: Global) -> Result<Pred, NoMemory>
    ensures { IfOk result (λ test. IsTrue (pred_within 3 test)) }
{
    let wanted = Value::Text(Bytes::from_slice(alloc, b"-7ab")?);
    Ok(Pred::Test(Cmp::Eq, joined(alloc)?, Expr::Const(wanted)))
}

#[test]
fn evaluates_and_tests_a_row(rt: HostRuntime) -> Result<(), Fail> {
    let alloc = rt.alloc();
    let row = sample(alloc)?;
    let value = eval(alloc, &joined(alloc)?, &row)?;
    let wanted = Value::Text(Bytes::from_slice(alloc, b"-7ab")?);
    assert!(rt; value.cmp(&wanted).is_eq());
    assert!(rt; holds(alloc, &is_joined(alloc)?, &row)?);
    Ok(())
}

#[test]
fn a_row_has_its_bytes_and_hash(rt: HostRuntime) -> Result<(), Fail> {
    let alloc = rt.alloc();
    let row = sample(alloc)?;
    let bytes = encode_row(alloc, &row)?;
    assert_eq!(rt; bytes.as_slice(), SAMPLE);
    let hash = key_hash(&row, &Columns::from_vec(vec![in alloc; 1]?));
    assert_eq!(rt; hash, 0xaf63_bd4c_8601_b7df);
    Ok(())
}

// As many rows of one Null.
fn many_rows(alloc: Global, count: u32) -> Result<Bytes, NoMemory> {
    let mut bytes = Bytes::new(alloc);
    for _ in 0..count {
        bytes.extend(&[0, 1, 0])?;
    }
    Ok(bytes)
}

#[test]
fn decodes_many_rows(rt: HostRuntime) -> Result<(), Fail> {
    let bytes = many_rows(rt.alloc(), 100_000)?;
    let rows = decode_rows(rt.alloc(), &bytes)?;
    assert_eq!(rt; rows.len(), 100_000);
    Ok(())
}
