//! The blocks of a trial's log, byte by byte as docs/FORMATS.md has them.

use crate::trial::Trial;
use row_core::{Bytes, NoMemory};
use std::alloc::Global;

// How many cells a filter's output has, where rows are spread anew: the job's largest parallelism.
const CELLS: u32 = 16;

/// An epoch is opened, and the job is started over a file for each subtask of the source.
pub fn start_block(alloc: Global, trial: Trial) -> Result<Bytes, NoMemory> {
    let text = job_text(alloc, trial)?;
    let mut block = Bytes::from_slice(alloc, &[1])?;
    put(&mut block, &[1])?;
    block.extend(&[2])?;
    put(&mut block, &[u32::try_from(text.len()).unwrap_or(0)])?;
    block.extend(text.as_slice())?;
    put(&mut block, &[1, trial.subtasks])?;
    put_sizes(&mut block, trial.subtasks)?;
    Ok(block)
}

fn job_text(alloc: Global, trial: Trial) -> Result<Bytes, NoMemory> {
    let mut text = Bytes::from_slice(
        alloc,
        br#"{"job":"trial","nodes":[{"op":"source","table":"t","columns":[["c","int"]]}"#,
    )?;
    for input in 0..trial.nodes.saturating_sub(2) {
        text.extend(
            br#",{"op":"filter","ship":"rebalance","where":["isnull",["col",0]],"input":"#,
        )?;
        text.extend(input.to_string(alloc)?.as_bytes())?;
        text.extend(b"}")?;
    }
    text.extend(br#",{"op":"sink","name":"out","input":"#)?;
    let last = trial.nodes.saturating_sub(2);
    text.extend(last.to_string(alloc)?.as_bytes())?;
    text.extend(b"}]}")?;
    Ok(text)
}

/// The vertices are made and decided, and all their subtasks are finished in each round. Between two
/// rounds all parts are lost.
pub fn later_block(alloc: Global, trial: Trial) -> Result<Bytes, NoMemory> {
    let mut block = Bytes::new(alloc);
    put_first_round(&mut block, trial)?;
    for round in 1..trial.rounds {
        put_lost(&mut block, trial, round - 1)?;
        put_round(&mut block, trial, round)?;
    }
    block.extend(&[9, 0])?;
    Ok(block)
}

fn put_first_round(block: &mut Bytes, trial: Trial) -> Result<(), NoMemory> {
    for vertex in 0..trial.vertices() {
        put_made(block, trial, vertex)?;
        put_decided(block, trial, vertex)?;
        put_finished(block, trial, vertex, 0)?;
    }
    Ok(())
}

fn put_round(block: &mut Bytes, trial: Trial, round: u32) -> Result<(), NoMemory> {
    for vertex in 0..trial.vertices() {
        put_finished(block, trial, vertex, round)?;
    }
    Ok(())
}

// The last vertex has the sink too.
fn put_made(block: &mut Bytes, trial: Trial, vertex: u32) -> Result<(), NoMemory> {
    block.extend(&[3])?;
    let next = vertex.saturating_add(1);
    if next == trial.vertices() {
        put(block, &[vertex, 2, vertex, next])
    } else {
        put(block, &[vertex, 1, vertex])
    }
}

// Each subtask reads what one producer gives, whole: a file has one cell.
fn put_decided(block: &mut Bytes, trial: Trial, vertex: u32) -> Result<(), NoMemory> {
    block.extend(&[5])?;
    put(block, &[vertex, trial.subtasks])?;
    let cells = if vertex == 0 { 1 } else { CELLS };
    for subtask in 0..trial.subtasks {
        put(block, &[1, 1, subtask, subtask.saturating_add(1), 0, cells])?;
    }
    Ok(())
}

// In each round an attempt of a higher number wins.
fn put_finished(block: &mut Bytes, trial: Trial, vertex: u32, round: u32) -> Result<(), NoMemory> {
    let is_last = vertex.saturating_add(1) == trial.vertices();
    let cells = if is_last { 1 } else { CELLS };
    for subtask in 0..trial.subtasks {
        block.extend(&[6])?;
        put(block, &[vertex, subtask, 1, round])?;
        if vertex > 0 {
            put(block, &[1, vertex - 1, subtask, 1, round])?;
        } else {
            put(block, &[0])?;
        }
        put(block, &[1, cells])?;
        put_sizes(block, cells)?;
    }
    Ok(())
}

fn put_lost(block: &mut Bytes, trial: Trial, round: u32) -> Result<(), NoMemory> {
    block.extend(&[7])?;
    put_all(block, trial, &[1, round])?;
    put_all(block, trial, &[])
}

// The list of all subtasks, each with these numbers behind it.
fn put_all(block: &mut Bytes, trial: Trial, more: &[u32]) -> Result<(), NoMemory> {
    put(block, &[trial.vertices().saturating_mul(trial.subtasks)])?;
    for vertex in 0..trial.vertices() {
        put_subtasks(block, trial, vertex, more)?;
    }
    Ok(())
}

fn put_subtasks(
    block: &mut Bytes,
    trial: Trial,
    vertex: u32,
    more: &[u32],
) -> Result<(), NoMemory> {
    for subtask in 0..trial.subtasks {
        put(block, &[vertex, subtask])?;
        put(block, more)?;
    }
    Ok(())
}

// Numbers of four bytes.
fn put(block: &mut Bytes, numbers: &[u32]) -> Result<(), NoMemory> {
    for number in numbers {
        block.extend(&number.to_be_bytes())?;
    }
    Ok(())
}

// So many numbers of eight bytes, each of which is 1.
fn put_sizes(block: &mut Bytes, number: u32) -> Result<(), NoMemory> {
    for _ in 0..number {
        block.extend(&1u64.to_be_bytes())?;
    }
    Ok(())
}
