ghost use Rattle.std.specs.Prelude.{◌≡◌, ◌++◌, List, IfOk, OnOk};
ghost use Rattle.graph_model.specs.declared.event.Event.{Event as OneEvent};
ghost use Rattle.event_codec.specs.Spelling.{event_bytes, events_bytes, EventFits, EventsFit, IsShort, AreShort};

use crate::Writable;
use crate::writing::{put_one, put_two};
use graph_model::{Event, Events};
use row_core::{Bytes, NoMemory};
use std::alloc::Global;

/// The body of a block with these events. docs/FORMATS.md states the format.
pub fn encode(alloc: Global, events: &Events) -> Result<Bytes, NoMemory>
    requires { AreShort events.now }
    ensures spelled { IfOk result (λ block. block ≡ events_bytes events.now) }
    // So the block decodes.
    ensures fits { OnOk result (EventsFit events.now) }
{
    let mut block = Bytes::new(alloc);
    for event in events.as_slice() {
        put_event(event, &mut block)?;
    }
    Ok(block)
}

/// What has a spelling is short enough to be encoded; so what was decoded is.
pub fn spelled_are_short()
    ensures { (events : List OneEvent) → EventsFit events → AreShort events }
{}

fn put_event(event: &Event, bytes: &mut Bytes) -> Result<(), NoMemory>
    requires { IsShort event.now }
    ensures spelled { OnOk result (bytes.new ≡ bytes.old ++ event_bytes event.now) }
    ensures fits { OnOk result (EventFits event.now) }
{
    match event {
        Event::Opened { epoch } => put_one(1, epoch, bytes),
        Event::Started { job, files } => put_two(2, job, files, bytes),
        Event::Made { vertex, nodes } => put_two(3, vertex, nodes, bytes),
        Event::Widened { node, side } => put_two(4, node, side, bytes),
        Event::Decided { vertex, assignment } => put_two(5, vertex, assignment, bytes),
        Event::Done {
            name,
            inputs,
            sizes,
        } => {
            put_two(6, name, inputs, bytes)?;
            sizes.put(bytes)
        }
        Event::Reset { gone, subtasks } => put_two(7, gone, subtasks, bytes),
        Event::Trouble { cause } => put_one(8, cause, bytes),
        Event::Ended { failed } => put_one(9, failed, bytes),
    }
}
