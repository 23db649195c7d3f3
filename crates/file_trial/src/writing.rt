use crate::trial::{Trial, filled, part_edges, part_name};
use crate::trial_error::TrialError;
use estate::Estate;
use estate_files::{FileEstate, FileSystem};
use row_core::Bytes;
use std::alloc::Global;

/// Puts the parts, writes the blocks of a log, and commits.
pub fn write<R: FileSystem>(
    alloc: Global,
    estate: &mut FileEstate<'_, R>,
    trial: Trial,
) -> Result<(), TrialError> {
    for part in 0..trial.parts {
        estate.shelf_put(part_name(part), &part_edges(alloc, part, trial.bytes)?)?;
    }
    write_log(alloc, estate, trial.blocks)?;
    let id = Bytes::from_slice(alloc, b"trial")?;
    let job = Bytes::from_slice(alloc, b"job")?;
    let text = Bytes::from_slice(alloc, b"text")?;
    estate.sink_commit(&id, &job, &text)?;
    Ok(())
}

fn write_log<R: FileSystem>(
    alloc: Global,
    estate: &mut FileEstate<'_, R>,
    blocks: u32,
) -> Result<(), TrialError> {
    let (mut log, _) = event_log::start(alloc, estate)?;
    for block in 0..blocks {
        log.flush(alloc, estate, &filled(alloc, block, 100)?)?;
    }
    Ok(())
}
