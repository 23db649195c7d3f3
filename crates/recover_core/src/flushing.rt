ghost use Rattle.std.specs.Prelude.{◌≡◌, ◌++◌, IfErr, IfOk, OnOk, length, false};
ghost use Rattle.estate.specs.Changes.{Leads};
ghost use Rattle.event_codec.specs.Spelling.{AreShort, EventsFit, events_bytes};
ghost use Rattle.event_log.specs.Blocks.{AddsBlock, KeepsBlocks, LandsBehind};
ghost use Rattle.event_log.specs.Started.{IsStarted};
ghost use Rattle.recover_core.specs.Causes.{IsUnflushed};
ghost use Rattle.recover_core.specs.Opening.{IsFlushed};

use crate::RecoverError;
use estate::Estate;
use event_codec::encode;
use event_log::{Log, LogError};
use exec_graph::Events;
use row_core::NoMemory;
use std::alloc::Global;

/// Adds events to the log as one block, and to those that it had. All memory is taken before the
/// block is written.
pub fn flush_behind<E: Estate>(
    alloc: Global,
    estate: &mut E,
    log: &mut Log,
    opening: Events,
    more: Events,
) -> Result<Events, RecoverError>
    requires short { AreShort more }
    requires started { IsStarted log.old.end (E.world estate.old) }
    ensures flushed { IsFlushed more log.new.end (E.world estate.old) (E.world estate.new) result }
    ensures all { IfOk result (λ events. events ≡ opening ++ more) }
    ensures cause { IfErr result (IsUnflushed log.old.end more
        (E.world estate.old) (E.world estate.new)) }
{
    let body = encode(alloc, &more)?;
    let mut events = opening.into_vec();
    events.append(&mut more.into_vec())?;
    match log.flush(alloc, estate, &body) {
        Ok(()) => Ok(Events::from_vec(events)),
        Err(LogError::Fault) => Err(RecoverError::LogFault),
        Err(LogError::TooLarge { asked }) => Err(RecoverError::LogTooLarge {
            asked: u128::from(asked),
        }),
        Err(LogError::BadBlock { .. }) => unreachable!(),
        Err(LogError::NoMemory) => Err(RecoverError::NoMemory),
    }
}
