ghost use Rattle.std.specs.Prelude.{◌≡◌, ◌⊎◌, [], IsErrOf, MatchResult};
ghost use Rattle.estate.specs.Changes.{Leads, Stays};
ghost use Rattle.batch_commands.specs.Causes.{EventsCause};
ghost use Rattle.batch_commands.specs.Refusals.{log_answer};
ghost use Rattle.batch_commands.specs.Events.{IsBlockFault, IsUnread, ShowsBlocks, ShowsLog};

use crate::log_refusal::LogRefusal;
use estate::Estate;
use event_log::{Blocks, LogError, view};
use event_text::event_lines;
use job_events::{first_fault, replay};
use row_core::Bytes;
use std::alloc::Global;

/// The lines of the log's events. It reads the log once, and nothing else.
pub fn events_text<E: Estate>(alloc: Global, estate: &mut E) -> Result<Bytes, LogRefusal>
    ensures why { MatchResult result
        (ShowsLog (E.world estate.old))
        (λ refusal. EventsCause []
        (E.world estate.old) (E.world estate.new) (log_answer refusal)) }
    ensures writes_nothing { Leads Stays (E.world estate.old) (E.world estate.new) }
    ensures met { IsErrOf result LogRefusal.Fault
        ⊎ ((E.world estate.new).counts.log_faults ≡ (E.world estate.old).counts.log_faults) }
{
    match view(alloc, estate) {
        Ok(blocks) => block_lines(alloc, &blocks),
        Err(error) => Err(unread(alloc, error)),
    }
}

// The lines of the events of whole blocks.
fn block_lines(alloc: Global, blocks: &Blocks) -> Result<Bytes, LogRefusal>
    ensures { MatchResult result (ShowsBlocks blocks.now) (IsBlockFault blocks.now) }
{
    let log = replay(alloc, blocks)?;
    Ok(event_lines(alloc, &log.events)?)
}

// Why a log is not shown whose blocks are not read. Before a broken block an event may be illegal.
fn unread(alloc: Global, error: LogError) -> LogRefusal
    ensures { IsUnread error result }
{
    match error {
        LogError::Fault => LogRefusal::Fault,
        LogError::TooLarge { asked } => LogRefusal::TooLarge { asked },
        LogError::BadBlock { before, .. } => LogRefusal::from(first_fault(alloc, &before)),
        LogError::NoMemory => LogRefusal::NoMemory,
    }
}
