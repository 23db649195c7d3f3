ghost use Rattle.std.specs.Prelude.{◌≡◌, IfErr, IfOk};
ghost use Rattle.estate.specs.Changes.{Leads};
ghost use Rattle.event_log.specs.Blocks.{KeepsBlocks};
ghost use Rattle.recover_core.specs.Causes.{IsNotReplayed, IsUnread, IsUnstarted};
ghost use Rattle.recover_core.specs.Reading.{IsLogRead};

use crate::RecoverError;
use estate::Estate;
use event_log::{Log, LogError, start};
use job_events::{ReplayError, ReplayedLog, first_fault, replay};
use std::alloc::Global;

/// Starts the log, and replays its events.
pub fn read_log<E: Estate>(
    alloc: Global,
    estate: &mut E,
) -> Result<(Log, ReplayedLog), RecoverError>
    ensures keeps { Leads KeepsBlocks (E.world estate.old) (E.world estate.new) }
    ensures read { IfOk result (λ (log, replay).
        IsLogRead (E.world estate.old) (E.world estate.new) log.end replay.events replay.state) }
    ensures cause { IfErr result (IsUnread (E.world estate.old) (E.world estate.new)) }
{
    let (log, blocks) = match start(alloc, estate) {
        Ok(started) => started,
        Err(error) => return Err(unstarted(alloc, error)),
    };
    match replay(alloc, &blocks) {
        Ok(replayed) => Ok((log, replayed)),
        Err(error) => Err(not_replayed(error)),
    }
}

fn unstarted(alloc: Global, error: LogError) -> RecoverError
    ensures { IsUnstarted error result }
{
    match error {
        LogError::Fault => RecoverError::LogFault,
        LogError::TooLarge { asked } => RecoverError::LogTooLarge {
            asked: u128::from(asked),
        },
        // An event may be at fault in a block before it.
        LogError::BadBlock { before, .. } => not_replayed(first_fault(alloc, &before)),
        LogError::NoMemory => RecoverError::NoMemory,
    }
}

fn not_replayed(error: ReplayError) -> RecoverError
    ensures { IsNotReplayed error result }
{
    match error {
        ReplayError::BadLog { block, event } => RecoverError::BadLog { block, event },
        ReplayError::NoMemory => RecoverError::NoMemory,
    }
}
