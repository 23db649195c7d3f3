use crate::trial::{Trial, filled, part_name};
use crate::trial_error::TrialError;
use estate::Estate;
use estate_files::{FileEstate, FileSystem};
use row_core::Bytes;
use std::alloc::Global;

/// Reads what a trial has written, and compares it.
pub fn read_back<R: FileSystem>(
    alloc: Global,
    estate: &mut FileEstate<'_, R>,
    trial: Trial,
) -> Result<(), TrialError> {
    same(estate.shelf_names()?.as_slice().len() == trial.parts as usize)?;
    for part in 0..trial.parts {
        let cell = estate.shelf_cell(part_name(part), 0, 0)?;
        same(is_found(&cell, &filled(alloc, part, trial.bytes)?))?;
    }
    same(has_blocks(alloc, estate, trial.blocks)?)?;
    let id = Bytes::from_slice(alloc, b"trial")?;
    let job = estate.sink_committed(&id)?;
    same(is_found(&job, &Bytes::from_slice(alloc, b"job")?))
}

fn has_blocks<R: FileSystem>(
    alloc: Global,
    estate: &mut FileEstate<'_, R>,
    wanted: u32,
) -> Result<bool, TrialError> {
    let blocks = event_log::view(alloc, estate)?;
    for block in 0..wanted {
        let body = filled(alloc, block, 100)?;
        match blocks.as_slice().get(block as usize) {
            Some(found) if found.equals(&body) => (),
            _ => return Ok(false),
        }
    }
    Ok(blocks.as_slice().len() == wanted as usize)
}

fn is_found(found: &Option<Bytes>, wanted: &Bytes) -> bool {
    match found {
        Some(bytes) => bytes.equals(wanted),
        None => false,
    }
}

fn same(is_same: bool) -> Result<(), TrialError> {
    if is_same {
        Ok(())
    } else {
        Err(TrialError::Differs)
    }
}
