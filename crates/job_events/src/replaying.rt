ghost use Rattle.std.specs.Prelude.{ℕ, IfErr, IfOk, List};
ghost use Rattle.graph_model.specs.declared.event.Event.{Event as OneEvent};
ghost use Rattle.job_events.specs.declared.log_state.LogState.{LogState as OneState};
ghost use Rattle.job_events.specs.Replays.{FaultAt, GivesFault, GivesReplay, IsBroken, IsFault, IsFaultIn, IsReplay, Spells};
ghost use Rattle.job_events.specs.Logs.{LeadsTo};

use crate::{LogState, ReplayError, ReplayedLog, next_state};
use event_codec::read_event;
use event_log::Blocks;
use exec_graph::Events;
use row_core::Bytes;
use std::alloc::Global;

/// The events of a log's blocks, and what they come to. An event is kept only once it is legal after
/// those before it, so the memory of a log stays within a small multiple of its bytes.
pub fn replay(alloc: Global, blocks: &Blocks) -> Result<ReplayedLog, ReplayError>
    ensures ok { IfOk result (λ replay. IsReplay blocks.now replay.events replay.state) }
    ensures err { IfErr result (IsFault blocks.now) }
    // Blocks without fault are replayed, unless memory runs out.
    ensures only { (events : List OneEvent) (state : OneState)
        → IsReplay blocks.now events state → GivesReplay result events state }
    ensures stops { (block event : ℕ) → FaultAt blocks.now block event
        → GivesFault result block event }
{
    replay_blocks(alloc, blocks.as_slice())
}

/// The first place at fault in a log whose block behind these is broken.
pub fn first_fault(alloc: Global, whole: &Blocks) -> ReplayError
    ensures { IsBroken whole.now result }
{
    match replay(alloc, whole) {
        Ok(_) => ReplayError::BadLog {
            block: whole.as_slice().len() as u64,
            event: 0,
        },
        Err(error) => error,
    }
}

fn replay_blocks(alloc: Global, blocks: &[Bytes]) -> Result<ReplayedLog, ReplayError>
    ensures ok { IfOk result (λ replay. IsReplay blocks.now replay.events replay.state) }
    ensures err { IfErr result (IsFault blocks.now) }
{
    let mut events = Vec::new(alloc);
    let mut state = LogState::Empty;
    for (number, block) in blocks.iter().enumerate() {
        let more = replay_block(alloc, number as u64, state, block)?;
        events.append(&mut more.events.into_vec())?;
        state = more.state;
    }
    Ok(ReplayedLog {
        events: Events::from_vec(events),
        state,
    })
}

// The events of the block of this number, and what they come to behind the blocks before it.
fn replay_block(
    alloc: Global,
    number: u64,
    before: LogState,
    block: &Bytes,
) -> Result<ReplayedLog, ReplayError>
    ensures spells { IfOk result (λ replay. Spells block.now replay.events) }
    ensures leads { IfOk result (λ replay. LeadsTo before replay.events replay.state) }
    ensures err { IfErr result (IsFaultIn number before block.now) }
{
    let mut events = Vec::new(alloc);
    let mut state = before;
    let mut rest = block.as_slice();
    while !rest.is_empty() {
        let at = ReplayError::BadLog {
            block: number,
            event: events.len() as u64,
        };
        let Some((event, after)) = read_event(alloc, rest)? else {
            return Err(at);
        };
        let Some(next) = next_state(alloc, state, &event)? else {
            return Err(at);
        };
        events.push(event)?;
        state = next;
        rest = after;
    }
    Ok(ReplayedLog {
        events: Events::from_vec(events),
        state,
    })
}
