use estate::{Edge, Edges, Estate, MemEstate, PartName};
use part_store::{Part, StoreError, cells, encoded_cells, put, sizes};
use row_core::{Bytes, CellRows, NoMemory};
use std::alloc::{AllocError, Global};
use std::test::Fail;
use test_estates::failing_at;

const X: PartName = PartName {
    vertex: 0,
    subtask: 0,
    epoch: 1,
    attempt: 0,
};

// The row of the number 7.
const SEVEN: &[u8] = &[0, 1, 1, 0, 0, 0, 0, 0, 0, 0, 7];

// The same, and behind it a row of two Nulls.
const UNEQUAL: &[u8] = &[0, 1, 1, 0, 0, 0, 0, 0, 0, 0, 7, 0, 2, 0, 0];

// A part of one edge with these cells.
fn part(alloc: Global, cells: &[&[u8]]) -> Result<Part, NoMemory> {
    let mut edge = Edge::new(alloc);
    for cell in cells {
        edge.push(Bytes::from_slice(alloc, cell)?)?;
    }
    let mut edges = Edges::new(alloc);
    edges.push(edge)?;
    Ok(Part { name: X, edges })
}

// An estate with such a part, of which this call fails.
fn holding(alloc: Global, cells: &[&[u8]], failing: u64) -> Result<MemEstate, StoreError> {
    let mut estate = failing_at(alloc, &[failing])?;
    put(&mut estate, &part(alloc, cells)?)?;
    Ok(estate)
}

// How many rows each of the cells has.
fn counts(alloc: Global, cells: &CellRows) -> Result<String, NoMemory> {
    let mut text = String::new(alloc);
    for rows in cells.as_slice() {
        write!(text, "{} ", rows.len())?;
    }
    Ok(text)
}

// How many rows of one value each of the cells before this one has, or why they are not read.
fn read<E: Estate>(alloc: Global, estate: &mut E, end: u32) -> Result<String, NoMemory> {
    match cells(alloc, estate, X, 0, 0, end, 1) {
        Ok(cells) => counts(alloc, &cells),
        Err(StoreError::NoMemory) => Err(AllocError),
        Err(error) => format!(in alloc; "{error:?}"),
    }
}

// The cells of a part, which call fails, how many cells are read, and two answers.
const READS: &[(&[&[u8]], u64, u32, &str, &str)] = &[
    (&[SEVEN, b"", SEVEN], 9, 4, "1 0 1 0 ", "1 0 1 0 "),
    (&[SEVEN, SEVEN], 2, 2, "ShelfFault", "1 1 "),
    (
        &[SEVEN, UNEQUAL, b"\xff"],
        9,
        3,
        "BadCell { name: PartName { vertex: 0, subtask: 0, epoch: 1, attempt: 0 }, edge: 0, cell: 1, at: 11 }",
        "BadCell { name: PartName { vertex: 0, subtask: 0, epoch: 1, attempt: 0 }, edge: 0, cell: 1, at: 11 }",
    ),
];

#[test]
fn a_part_reads_as_it_was_put(rt: HostRuntime) -> Result<(), Fail> {
    for (cells, failing, end, first, second) in READS {
        let mut estate = holding(rt.alloc(), cells, *failing)?;
        assert_eq!(rt; read(rt.alloc(), &mut estate, *end)?.as_str(), *first);
        assert_eq!(rt; read(rt.alloc(), &mut estate, *end)?.as_str(), *second);
    }
    Ok(())
}

#[test]
fn cells_are_read_without_their_rows(rt: HostRuntime) -> Result<(), Fail> {
    let mut estate = holding(rt.alloc(), &[SEVEN, b"", SEVEN], 9)?;
    let read = encoded_cells(rt.alloc(), &mut estate, X, 0, 2, 3, 1)?;
    for rows in read.as_slice() {
        assert_eq!(rt; rows.as_bytes(), SEVEN);
    }
    assert_eq!(rt; read.as_slice().len(), 1);
    Ok(())
}

#[test]
fn sizes_are_those_of_the_cells(rt: HostRuntime) -> Result<(), Fail> {
    let made = sizes(rt.alloc(), &part(rt.alloc(), &[SEVEN, b"", UNEQUAL])?)?;
    for cells in made.as_slice() {
        assert_eq!(rt; cells.as_slice(), [11, 0, 15].as_slice());
    }
    assert_eq!(rt; made.as_slice().len(), 1);
    Ok(())
}

#[test]
fn a_lost_part_is_gone(rt: HostRuntime) -> Result<(), Fail> {
    let mut estate = holding(rt.alloc(), &[SEVEN], 9)?;
    estate.lose(X);
    let read = cells(rt.alloc(), &mut estate, X, 0, 0, 1, 1);
    assert!(rt; matches!(read, Err(StoreError::Gone(X))));
    Ok(())
}

#[test]
fn a_fault_of_the_shelf_is_answered(rt: HostRuntime) -> Result<(), Fail> {
    let failed = holding(rt.alloc(), &[SEVEN], 0);
    assert!(rt; matches!(failed, Err(StoreError::ShelfFault)));
    Ok(())
}
