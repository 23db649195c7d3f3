//! Tries what the reading of a log costs: a plan of one long chain is made and decided, all its
//! subtasks are finished round after round, and all their parts are lost between the rounds. Its
//! words are the number of nodes, the number of subtasks of each vertex and the number of rounds;
//! with none it tries a few, and tells no times.
#![tactic(auto)]

mod job_log;
mod trial;
mod trial_error;

use crate::job_log::{later_block, start_block};
use crate::trial::{Trial, trial_of};
use crate::trial_error::TrialError;
use event_log::Blocks;
use exec_graph::{Event, Graph};
use job_events::{LogState, ReplayedLog, apply, decode, replay};
use row_core::NoMemory;
use std::alloc::Global;
use std::process::ExitCode;
use std::time::{Duration, Instant};
use std::{env, io};

// How many events there were in how many bytes, and how long they took: to be decoded, to be
// applied one after another, and to be replayed, which is both.
#[derive(Clone, Copy)]
struct Found {
    events: usize,
    bytes: usize,
    decoding: Duration,
    applying: Duration,
    replaying: Duration,
}

fn main(rt: HostRuntime) -> ExitCode {
    match serve(&rt) {
        Ok(()) => ExitCode::SUCCESS,
        Err(error) => {
            let _ = println!(rt; "{error:?}");
            ExitCode::FAILURE
        }
    }
}

fn serve(rt: &HostRuntime) -> Result<(), TrialError> {
    let words: Vec<String> = env::args(rt)?.skip(1).collect(rt.alloc())?;
    let found = try_log(rt, trial_of(words.as_slice())?)?;
    println!(rt; "events={} bytes={}", found.events, found.bytes)?;
    if !words.is_empty() {
        println!(rt;
            "decode={} ms apply={} ms replay={} ms",
            found.decoding.as_millis(),
            found.applying.as_millis(),
            found.replaying.as_millis()
        )?;
    }
    Ok(())
}

fn try_log(rt: &HostRuntime, trial: Trial) -> Result<Found, TrialError> {
    let alloc = rt.alloc();
    let block = later_block(alloc, trial)?;
    let bytes = block.len();
    let begun = Instant::now(rt)?;
    let events = decode(alloc, &block)?;
    let decoding = begun.elapsed(rt)?;
    let mut graph = started(alloc, trial)?;
    let begun = Instant::now(rt)?;
    apply_all(&mut graph, events.as_slice())?;
    let applying = begun.elapsed(rt)?;
    let mut blocks = start_blocks(alloc, trial)?;
    blocks.push(block)?;
    let begun = Instant::now(rt)?;
    let log = replay(alloc, &blocks)?;
    let replaying = begun.elapsed(rt)?;
    Ok(Found {
        events: log.events.as_slice().len(),
        bytes,
        decoding,
        applying,
        replaying,
    })
}

// The graph of the job that is started.
fn started(alloc: Global, trial: Trial) -> Result<Graph, TrialError> {
    let ReplayedLog { state, .. } = replay(alloc, &start_blocks(alloc, trial)?)?;
    match state {
        LogState::Running(graph) => Ok(graph),
        _ => Err(TrialError::Log),
    }
}

fn start_blocks(alloc: Global, trial: Trial) -> Result<Blocks, NoMemory> {
    let mut blocks = Blocks::new(alloc);
    blocks.push(start_block(alloc, trial)?)?;
    Ok(blocks)
}

fn apply_all(graph: &mut Graph, events: &[Event]) -> Result<(), TrialError> {
    for event in events {
        apply(graph, event)?;
    }
    Ok(())
}
