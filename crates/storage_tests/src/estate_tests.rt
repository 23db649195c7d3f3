ghost use Rattle.std.specs.Prelude.{◌≡◌};

use estate::{
    Clock, Edges, Estate, EstateError, Files, FixedClock, Gate, InputError, Inputs, MemEstate,
    MemInputs, MemPrinter, NoGate, PartName, Printer, Table, Tables,
};
use row_core::Bytes;
use std::alloc::Global;
use std::test::Fail;
use test_estates::{failing_at, numbers, whole_log};

fn table(alloc: Global, name: &[u8], files: &[&[u8]]) -> Result<Table, Fail> {
    let mut made = Files::new(alloc);
    for file in files {
        made.push(Bytes::from_slice(alloc, file)?)?;
    }
    Ok(Table {
        table: Bytes::from_slice(alloc, name)?,
        files: made,
    })
}

// A file of a table, where there is one.
fn file_at<I: Inputs>(
    inputs: &mut I,
    table: &Bytes,
    file: u32,
) -> Result<Option<Bytes>, InputError> {
    let sizes = inputs.file_sizes(table)?;
    if file as usize >= sizes.as_slice().len() {
        return Ok(None);
    }
    Ok(Some(inputs.read_file(table, file)?))
}

fn prints<P: Printer>(printer: &mut P, bytes: &Bytes) -> bool {
    printer.print(bytes).is_ok()
}

fn reads<C: Clock>(clock: &mut C) -> u64 {
    clock.now()
}

fn lets_in<G: Gate>(gate: &G, name: PartName) -> Result<(), G::Fault> {
    gate.enter(name)
}

// Two calls: the length, and a write where it is no further than that.
fn writes<E: Estate>(estate: &mut E, at: u64, bytes: &Bytes) -> Result<(), EstateError> {
    let len = estate.log_len()?;
    if at > len {
        return Err(EstateError::Failed);
    }
    estate.log_write(at, bytes)
}

// What a crash leaves of the log of `busy`, from its first write on.
fn log_left(moment: u64, choice: u32) -> &'static [u8] {
    match (moment, choice) {
        (0..=2, _) | (3..=5, 0) => b"".as_slice(),
        (3..=5, 1) => b"ab".as_slice(),
        (3..=5, 2) => b"\xff\xff".as_slice(),
        (3..=5, _) => b"a".as_slice(),
        (6..=8, _) | (9..=15, 0) => b"ab".as_slice(),
        (9..=12, 1) => b"abcdef".as_slice(),
        (9..=12, 2) => b"ab\xff\xff\xff\xff".as_slice(),
        (9..=12, _) => b"abcd".as_slice(),
        (13..=15, 2) => b"a\xff\xff\xff\xff\xff".as_slice(),
        (13..=15, 3) => b"axcdef".as_slice(),
        _ => b"axyzef".as_slice(),
    }
}

// Writes "ab", synced, "cdef" behind it and "xyz" over it, synced.
fn fill(alloc: Global, estate: &mut MemEstate) -> Result<(), EstateError> {
    writes(estate, 0, &Bytes::from_slice(alloc, b"ab")?)?;
    estate.log_sync()?;
    writes(estate, 2, &Bytes::from_slice(alloc, b"cdef")?)?;
    writes(estate, 1, &Bytes::from_slice(alloc, b"xyz")?)?;
    estate.log_sync()
}

// An estate with a part and a commit, and then the writes.
fn busy(alloc: Global) -> Result<MemEstate, EstateError> {
    let mut estate = failing_at(alloc, &[])?;
    estate.shelf_put(part(1), &Edges::new(alloc))?;
    let id = Bytes::from_slice(alloc, b"id")?;
    estate.sink_commit(&id, &id, &id)?;
    fill(alloc, &mut estate)?;
    Ok(estate)
}

// The log that a crash leaves, how many parts are held then, and how many commits there are.
fn left(estate: &MemEstate, moment: u64, choice: u32) -> Result<(Bytes, usize, usize), Fail> {
    if moment >= estate.moments() || choice > 3 {
        return Err("no such crash".into());
    }
    let mut left = estate.crash(moment, choice)?;
    let log = whole_log(&mut left)?;
    let parts = held(&mut left)?;
    let commits = left.commits()?;
    Ok((log, parts, commits.as_slice().len()))
}

#[test]
fn crashes_at_each_moment(rt: HostRuntime) -> Result<(), Fail> {
    let estate = busy(rt.alloc())?;
    assert_eq!(rt; estate.moments(), 21);
    for moment in 0u64..21 {
        for choice in 0..4 {
            let (log, parts, commits) = left(&estate, moment, choice)?;
            let wanted = log_left(moment.saturating_sub(4), choice);
            assert!(rt; log.as_slice() == wanted, "at {moment} by {choice}");
            assert_eq!(rt; parts, usize::from(moment >= 2));
            assert_eq!(rt; commits, usize::from(moment >= 4));
        }
    }
    Ok(())
}

fn part(vertex: u32) -> PartName
    ensures { result ≡ record { vertex = vertex; subtask = 0; epoch = 0; attempt = 0 } }
{
    PartName {
        vertex,
        subtask: 0,
        epoch: 0,
        attempt: 0,
    }
}

// How many parts are held.
fn held<E: Estate>(estate: &mut E) -> Result<usize, EstateError> {
    let names = estate.shelf_names()?;
    Ok(names.as_slice().len())
}

// The other objects in memory, each through its trait.
#[test]
fn inputs_answer(rt: HostRuntime) -> Result<(), Fail> {
    let alloc = rt.alloc();
    let job = Bytes::from_slice(alloc, b"job")?;
    let name = Bytes::from_slice(alloc, b"t")?;
    let tables = Tables::from_vec(vec![in alloc; table(alloc, b"t", &[b"ab", b"c"])?]?);
    let mut inputs = MemInputs::new(alloc, &job, &tables, &numbers(alloc, &[])?)?;
    assert!(rt; inputs.job_text()?.equals(&job));
    let found = file_at(&mut inputs, &name, 1)?;
    assert!(rt; matches!(&found, Some(bytes) if bytes.as_slice() == b"c".as_slice()));
    Ok(())
}

#[test]
fn a_printer_a_clock_and_a_gate_answer(rt: HostRuntime) -> Result<(), Fail> {
    let alloc = rt.alloc();
    let job = Bytes::from_slice(alloc, b"job")?;
    let mut printer = MemPrinter::new(alloc, &numbers(alloc, &[])?)?;
    assert!(rt; prints(&mut printer, &job));
    assert!(rt; printer.printed()?.equals(&job));
    let mut clock = FixedClock::new(alloc, &numbers(alloc, &[5, 7])?)?;
    for want in [5, 7, 7] {
        assert_eq!(rt; reads(&mut clock), want);
    }
    assert!(rt; lets_in(&NoGate, part(1)).is_ok());
    Ok(())
}
