ghost use Rattle.std.specs.Prelude.{◌≡◌, ◌++◌, ℕ, List, IfOk, IfErr};
ghost use Rattle.graph_model.specs.declared.event.Event.{Event as OneEvent};
ghost use Rattle.event_codec.specs.Spelling.{event_bytes, events_bytes, EventFits, EventsFit, AreShort};
ghost use Rattle.event_codec.specs.Answers.{StopsAfter, IsCause, GivesEvents, GivesBad};

use crate::EventError;
use crate::event_reading::read_event;
use graph_model::Events;
use row_core::Bytes;
use std::alloc::Global;

/// The events that a block spells, all of its bytes. docs/FORMATS.md states the format.
pub fn decode(alloc: Global, block: &Bytes) -> Result<Events, EventError>
    // What is read is spelled so.
    ensures found { IfOk result (λ events. EventsFit events × (block.now ≡ events_bytes events)) }
    // So it can be encoded again.
    ensures short { IfOk result (λ events. AreShort events) }
    // What is spelled so is read, unless memory runs out.
    ensures only { (events : List OneEvent) → EventsFit events → block.now ≡ events_bytes events
        → GivesEvents result events }
    // A refusal is at the first event that has no spelling, and such an event is refused.
    ensures cause { IfErr result (λ error. IsCause block.now error) }
    ensures stops { (before : List OneEvent) → StopsAfter block.now before
        → GivesBad result before }
{
    read_events(alloc, block.as_slice())
}

/// A block spells one list of events at most, and no event's spelling begins another's.
pub fn one_spelling()
    ensures events { (a b : List OneEvent) → EventsFit a → EventsFit b
        → events_bytes a ≡ events_bytes b → a ≡ b }
    ensures event { (a b : OneEvent) (x y : List ℕ) → EventFits a → EventFits b
        → event_bytes a ++ x ≡ event_bytes b ++ y → (a ≡ b) × (x ≡ y) }
{}

fn read_events(alloc: Global, bytes: &[u8]) -> Result<Events, EventError>
    ensures found { IfOk result (λ events. EventsFit events × (bytes.now ≡ events_bytes events)) }
    ensures cause { IfErr result (λ error. IsCause bytes.now error) }
{
    let mut events = Vec::new(alloc);
    let mut rest = bytes;
    while !rest.is_empty() {
        let Some((event, after)) = read_event(alloc, rest)? else {
            return Err(EventError::Bad {
                at: events.len() as u64,
                before: Events::from_vec(events),
            });
        };
        events.push(event)?;
        rest = after;
    }
    Ok(Events::from_vec(events))
}
