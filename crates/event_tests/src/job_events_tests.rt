use event_log::Blocks;
use job_events::{LogState, ReplayError, first_fault, replay};
use row_core::{Bytes, NoMemory};
use std::alloc::{AllocError, Global};
use std::test::Fail;

// What a log comes to, or its first place at fault.
#[derive(Clone, Copy, Debug, PartialEq, Eq)]
enum Found {
    Empty,
    Awaiting(u32),
    Jobless(u32),
    Running,
    Bad(u64, u64),
}

const ONE: &[u8] = &[1, 0, 0, 0, 1];

const TWO: &[u8] = &[1, 0, 0, 0, 2];

// The start of a job whose text is a lone brace, without files.
const REFUSED: &[u8] = &[2, 0, 0, 0, 1, b'{', 0, 0, 0, 0];

const MADE: &[u8] = &[3, 0, 0, 0, 0, 0, 0, 0, 0];

const FAILED: &[u8] = &[9, 1];

// The bytes of a log's blocks, and what they come to.
const LOGS: [(&[&[&[u8]]], Found); 15] = [
    (&[], Found::Empty),
    (&[&[]], Found::Empty),
    (&[&[ONE]], Found::Awaiting(1)),
    (&[&[ONE, TWO]], Found::Jobless(2)),
    (&[&[TWO], &[ONE]], Found::Bad(1, 0)),
    (&[&[ONE, ONE]], Found::Bad(0, 1)),
    (&[&[&[1, 0, 0, 0, 0]]], Found::Bad(0, 0)),
    (&[&[ONE, REFUSED]], Found::Jobless(1)),
    (&[&[ONE, REFUSED], &[TWO]], Found::Jobless(2)),
    (&[&[ONE, REFUSED], &[TWO, MADE]], Found::Bad(1, 1)),
    (&[&[REFUSED]], Found::Bad(0, 0)),
    (&[&[ONE], &[TWO], &[REFUSED]], Found::Bad(2, 0)),
    (&[&[ONE], &[FAILED]], Found::Bad(1, 0)),
    (&[&[&[9]]], Found::Bad(0, 0)),
    (&[&[ONE], &[TWO, &[1, 0, 0]]], Found::Bad(1, 1)),
];

// Blocks, each of several pieces.
fn blocks(alloc: Global, pieces: &[&[&[u8]]]) -> Result<Blocks, NoMemory> {
    let mut made = Vec::new(alloc);
    for block in pieces {
        made.push(joined(alloc, block)?)?;
    }
    Ok(Blocks::from_vec(made))
}

fn joined(alloc: Global, pieces: &[&[u8]]) -> Result<Bytes, NoMemory> {
    let mut bytes = Bytes::new(alloc);
    for piece in pieces {
        bytes.extend(piece)?;
    }
    Ok(bytes)
}

fn replayed(alloc: Global, blocks: &Blocks) -> Result<Found, NoMemory> {
    match replay(alloc, blocks) {
        Ok(log) => Ok(state_of(&log.state)),
        Err(ReplayError::BadLog { block, event }) => Ok(Found::Bad(block, event)),
        Err(ReplayError::NoMemory) => Err(AllocError),
    }
}

fn state_of(state: &LogState) -> Found {
    match state {
        LogState::Empty => Found::Empty,
        LogState::Awaiting { epoch } => Found::Awaiting(*epoch),
        LogState::Jobless { epoch } => Found::Jobless(*epoch),
        LogState::Running(_) => Found::Running,
    }
}

#[test]
fn what_logs_come_to(rt: HostRuntime) -> Result<(), Fail> {
    for (pieces, wanted) in &LOGS {
        let blocks = blocks(rt.alloc(), pieces)?;
        assert_eq!(rt; replayed(rt.alloc(), &blocks)?, *wanted);
    }
    Ok(())
}

#[test]
fn an_illegal_event_before_a_broken_block(rt: HostRuntime) -> Result<(), Fail> {
    let whole = blocks(rt.alloc(), &[&[ONE], &[TWO]])?;
    let behind = ReplayError::BadLog { block: 2, event: 0 };
    assert_eq!(rt; first_fault(rt.alloc(), &whole), behind);
    let illegal = blocks(rt.alloc(), &[&[ONE, FAILED], &[TWO]])?;
    let first = ReplayError::BadLog { block: 0, event: 1 };
    assert_eq!(rt; first_fault(rt.alloc(), &illegal), first);
    Ok(())
}

// A job of a source, a filter and a sink over one file of 29 bytes, from its start to its end.
const JOB: &[u8] =
    br#"{"job":"orders","nodes":[{"op":"source","table":"orders","columns":[["id","int"]]},{"op":"filter","input":0,"where":["ge",["col",0],["int",2]]},{"op":"sink","input":1,"name":"out"}]}"#;

const FILES: &[u8] = &[0, 0, 0, 1, 0, 0, 0, 1, 0, 0, 0, 0, 0, 0, 0, 29];

const NO_FILES: &[u8] = &[0, 0, 0, 0];

const CHAIN: &[u8] = &[
    3, 0, 0, 0, 0, 0, 0, 0, 3, 0, 0, 0, 0, 0, 0, 0, 1, 0, 0, 0, 2,
];

const DECIDED: &[u8] = &[
    5, 0, 0, 0, 0, 0, 0, 0, 1, 0, 0, 0, 1, 0, 0, 0, 1, 0, 0, 0, 0, 0, 0, 0, 1, 0, 0, 0, 0, 0, 0, 0,
    1,
];

const DONE: &[u8] = &[
    6, 0, 0, 0, 0, 0, 0, 0, 0, 0, 0, 0, 1, 0, 0, 0, 0, 0, 0, 0, 0, 0, 0, 0, 1, 0, 0, 0, 1, 0, 0, 0,
    0, 0, 0, 0, 58,
];

const FINISHED: &[u8] = &[9, 0];

// A block in which an epoch is opened and the job is started, and a block of these pieces.
fn job_blocks(alloc: Global, files: &[u8], pieces: &[&[u8]]) -> Result<Blocks, NoMemory> {
    let mut made = Vec::new(alloc);
    made.push(started(alloc, files)?)?;
    made.push(joined(alloc, pieces)?)?;
    Ok(Blocks::from_vec(made))
}

// The tag of a start stands before the length of the job's text.
fn started(alloc: Global, files: &[u8]) -> Result<Bytes, NoMemory> {
    let len = (JOB.len() as u32).to_be_bytes();
    joined(alloc, &[ONE, &[2], &len, JOB, files])
}

// The events after the start of the job, and what they come to.
const JOBS: [(&[&[u8]], Found); 6] = [
    (&[CHAIN, DECIDED, DONE, FINISHED], Found::Running),
    (&[CHAIN, DECIDED, DONE, TWO, FINISHED], Found::Running),
    (&[DECIDED], Found::Bad(1, 0)),
    (&[CHAIN, DECIDED, DONE, DONE], Found::Bad(1, 3)),
    (&[CHAIN, DECIDED, FINISHED], Found::Bad(1, 2)),
    (&[CHAIN, DECIDED, DONE, FINISHED, TWO], Found::Bad(1, 4)),
];

#[test]
fn what_a_job_comes_to(rt: HostRuntime) -> Result<(), Fail> {
    for (pieces, wanted) in &JOBS {
        let blocks = job_blocks(rt.alloc(), FILES, pieces)?;
        assert_eq!(rt; replayed(rt.alloc(), &blocks)?, *wanted);
    }
    Ok(())
}

#[test]
fn a_start_without_its_tables(rt: HostRuntime) -> Result<(), Fail> {
    let blocks = job_blocks(rt.alloc(), NO_FILES, &[])?;
    assert_eq!(rt; replayed(rt.alloc(), &blocks)?, Found::Bad(0, 1));
    Ok(())
}
