use row_core::{Bytes, Expr, NoMemory, Pred};
use row_view::{BadRow, EncodedRows, ValueRef, hash_at, holds_at, put_row};
use std::alloc::Global;
use std::test::Fail;

// 7, Null and ab, as one row.
const ROW: [ValueRef<'static>; 3] = [ValueRef::Int(7), ValueRef::Null, ValueRef::Text(b"ab")];

const BYTES: &[u8] = &[0, 3, 1, 0, 0, 0, 0, 0, 0, 0, 7, 0, 2, 0, 0, 0, 2, 97, 98];

// The same twice, and behind it the begin of a row of one value.
const MORE: &[u8] = &[
    0, 3, 1, 0, 0, 0, 0, 0, 0, 0, 7, 0, 2, 0, 0, 0, 2, 97, 98, 0, 3, 1, 0, 0, 0, 0, 0, 0, 0, 7, 0,
    2, 0, 0, 0, 2, 97, 98, 0, 1,
];

// Bytes, a width, and where a row of it is missing.
const BAD: &[(&[u8], u32, u64)] = &[(MORE, 3, 38), (BYTES, 2, 0)];

#[test]
fn the_first_row_that_is_none_is_answered_with_its_place(rt: HostRuntime) -> Result<(), Fail> {
    for (bytes, width, wanted) in BAD {
        let checked = EncodedRows::check(Bytes::from_slice(rt.alloc(), bytes)?, *width);
        assert!(rt; matches!(checked, Err(BadRow { at }) if at == *wanted));
    }
    Ok(())
}

#[test]
fn a_row_is_written(rt: HostRuntime) -> Result<(), Fail> {
    let mut bytes = Bytes::new(rt.alloc());
    put_row(&mut bytes, &ROW)?;
    assert_eq!(rt; bytes.as_slice(), BYTES);
    Ok(())
}

#[test]
fn a_row_is_hashed_and_tested(rt: HostRuntime) -> Result<(), Fail> {
    assert_eq!(rt; hash_at(&ROW, &[1]), 0xaf63_bd4c_8601_b7df);
    assert!(rt; holds_at(rt.alloc(), &Pred::IsNull(Expr::Col(1)), &ROW)?);
    Ok(())
}

// How many of the next five rows there are and begin with 7 and Null.
fn count_sevens(alloc: Global, rows: &EncodedRows) -> Result<usize, NoMemory> {
    let mut reader = rows.reader();
    let mut row = Vec::new(alloc);
    let mut count = 0usize;
    for _ in 0..5 {
        let is_read = reader.read_into(&mut row)?;
        if is_read && matches!(row.as_slice(), [ValueRef::Int(7), ValueRef::Null, _]) {
            count = count.saturating_add(1);
        }
    }
    Ok(count)
}

#[test]
fn rows_are_read_one_after_another(rt: HostRuntime) -> Result<(), Fail> {
    let bytes = Bytes::from_slice(rt.alloc(), &MORE[..38])?;
    let rows = EncodedRows::check(bytes, 3)?;
    assert_eq!(rt; rows.decoded(rt.alloc())?.len(), 2);
    assert_eq!(rt; count_sevens(rt.alloc(), &rows)?, 2);
    Ok(())
}
