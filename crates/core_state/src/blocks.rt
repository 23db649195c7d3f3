ghost use Rattle.std.specs.Prelude.{◌≡◌, ◌+◌, ◌≤◌, ◌++◌, [], OnOk, OnErr, IfErr, vec_len, vec_capacity};
ghost use Rattle.core_state.specs.Writing.{AddsEvents, WhyUnflushed, Wrote};
ghost use Rattle.event_codec.specs.Spelling.{AreShort};
ghost use Rattle.event_log.specs.Started.{IsStarted};

use estate::Estate;
use event_codec::encode;
use event_log::{Log, LogError};
use exec_graph::{Event, Events};
use std::alloc::Global;
use std::mem::replace;

/// Writes these events to the log, as one block.
pub fn write_block<E: Estate>(
    alloc: Global,
    log: &mut Log,
    estate: &mut E,
    buffer: &mut Vec<Event>,
) -> Result<(), LogError>
    requires short { AreShort buffer.old.items }
    requires started { IsStarted log.old.end (E.world estate.old) }
    ensures items { buffer.new.items ≡ buffer.old.items }
    ensures len { vec_len buffer.new ≡ vec_len buffer.old }
    ensures adds { AddsEvents buffer.old.items (E.world estate.old) (E.world estate.new) }
    ensures wrote { OnOk result
        (Wrote buffer.old.items log.old.end log.new.end (E.world estate.old) (E.world estate.new)) }
    ensures end { OnErr result (log.new.end ≡ log.old.end) }
    ensures why { IfErr result (WhyUnflushed buffer.old.items log.old.end
        (E.world estate.old) (E.world estate.new)) }
{
    let events = Events::from_vec(replace(buffer, Vec::new(alloc)));
    let written = write_events(alloc, log, estate, &events);
    *buffer = events.into_vec();
    written
}

fn write_events<E: Estate>(
    alloc: Global,
    log: &mut Log,
    estate: &mut E,
    events: &Events,
) -> Result<(), LogError>
    requires short { AreShort events.now }
    requires started { IsStarted log.old.end (E.world estate.old) }
    ensures adds { AddsEvents events.now (E.world estate.old) (E.world estate.new) }
    ensures wrote { OnOk result
        (Wrote events.now log.old.end log.new.end (E.world estate.old) (E.world estate.new)) }
    ensures end { OnErr result (log.new.end ≡ log.old.end) }
    ensures why { IfErr result (WhyUnflushed events.now log.old.end
        (E.world estate.old) (E.world estate.new)) }
{
    let body = encode(alloc, events)?;
    log.flush(alloc, estate, &body)
}

/// Moves the events of one list behind those of another, which has the room.
pub fn append_reserved(past: &mut Vec<Event>, more: &mut Vec<Event>)
    requires { vec_len past.old + vec_len more.old ≤ vec_capacity past.old }
    ensures items { past.new.items ≡ past.old.items ++ more.old.items }
    ensures none { more.new.items ≡ [] }
{
    let appended = past.append(more);
    let _ = appended;
}
