use op_join::join;
use plan_model::{JoinKind, KeyPairs, Widths};
use row_core::{NoMemory, Row, Rows, Value};
use std::alloc::Global;
use std::test::Fail;

fn row_of(alloc: Global, number: i64) -> Result<Row, NoMemory> {
    let mut row = Row::new(alloc);
    row.push(Value::Int(number))?;
    Ok(row)
}

// A row of one number for each.
fn rows_of(alloc: Global, numbers: &[i64]) -> Result<Rows, NoMemory> {
    let mut rows = Rows::new(alloc);
    for number in numbers {
        rows.push(row_of(alloc, *number)?)?;
    }
    Ok(rows)
}

// The first multiples of a number, in rows of their own.
fn multiples(alloc: Global, of: i64, limit: i64) -> Result<Rows, NoMemory> {
    let mut rows = Rows::new(alloc);
    for number in 0..limit {
        rows.push(row_of(alloc, number.wrapping_mul(of))?)?;
    }
    Ok(rows)
}

// How many rows the join of these by their columns 0 has.
fn count(alloc: Global, kind: JoinKind, left: &Rows, right: &Rows) -> Result<usize, NoMemory> {
    let keys = KeyPairs::from_vec(vec![in alloc; (0, 0)]?);
    let widths = Widths { left: 1, right: 1 };
    Ok(join(alloc, kind, &keys, widths, left, right)?.len())
}

// A kind of join, and how many rows it has of 1, 2, 2 and 1, 1, 3.
const KINDS: &[(JoinKind, usize)] = &[
    (JoinKind::Inner, 2),
    (JoinKind::Left, 4),
    (JoinKind::Right, 3),
    (JoinKind::Full, 5),
    (JoinKind::Semi, 1),
    (JoinKind::Anti, 2),
];

#[test]
fn each_kind_has_its_rows(rt: HostRuntime) -> Result<(), Fail> {
    let alloc = rt.alloc();
    for (kind, rows) in KINDS {
        let left = rows_of(alloc, &[1, 2, 2])?;
        let right = rows_of(alloc, &[1, 1, 3])?;
        assert_eq!(rt; count(alloc, *kind, &left, &right)?, *rows);
    }
    Ok(())
}

// A kind of join, of which number each side has how many multiples, and how many rows there are.
const MANY: &[(JoinKind, (i64, i64), (i64, i64), usize)] = &[
    (JoinKind::Inner, (1, 200_000), (1, 200_000), 200_000),
    (JoinKind::Full, (0, 100_000), (0, 10), 1_000_000),
    (JoinKind::Semi, (1, 200_000), (0, 100_000), 1),
];

// Each in far less time than a comparison of all pairs takes.
#[test]
fn many_rows_are_joined_quickly(rt: HostRuntime) -> Result<(), Fail> {
    let alloc = rt.alloc();
    for (kind, (left, lefts), (right, rights), rows) in MANY {
        let left = multiples(alloc, *left, *lefts)?;
        let right = multiples(alloc, *right, *rights)?;
        assert_eq!(rt; count(alloc, *kind, &left, &right)?, *rows);
    }
    Ok(())
}
