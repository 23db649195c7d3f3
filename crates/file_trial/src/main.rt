//! Tries the real files: puts parts, writes a log and commits in the present folder, and then, with the
//! folder opened again, reads it all back. Its words are the number of parts, the bytes of each, and the
//! number of the log's blocks; with none it tries a few small ones.
#![tactic(auto)]

mod reading;
mod trial;
mod trial_error;
mod writing;

use crate::reading::read_back;
use crate::trial::{Trial, trial_of};
use crate::trial_error::TrialError;
use crate::writing::write;
use estate_files::{FileEstate, FileSystem};
use std::process::{ExitCode, Process};
use std::{env, io};

fn main(rt: HostRuntime) -> ExitCode {
    match serve(&rt) {
        Ok(trial) => {
            let _ = println!(rt;
                "parts={} bytes={} blocks={} read back",
                trial.parts, trial.bytes, trial.blocks
            );
            ExitCode::SUCCESS
        }
        Err(error) => {
            let _ = println!(rt; "{error:?}");
            ExitCode::FAILURE
        }
    }
}

fn serve(rt: &HostRuntime) -> Result<Trial, TrialError> {
    let trial = trial_of(words(rt)?.as_slice())?;
    write(rt.alloc(), &mut opened(rt, rt.process())?, trial)?;
    read_back(rt.alloc(), &mut opened(rt, rt.process())?, trial)?;
    Ok(trial)
}

fn words(rt: &HostRuntime) -> io::Result<Vec<String>> {
    Ok(env::args(rt)?.skip(1).collect(rt.alloc())?)
}

fn opened<R: FileSystem>(rt: &R, process: Process) -> Result<FileEstate<'_, R>, TrialError> {
    Ok(FileEstate::new(rt, process, rt.alloc(), ".")?)
}
