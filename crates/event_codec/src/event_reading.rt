ghost use Rattle.std.specs.Prelude.{◌∷◌, MatchOption, IfOk};
ghost use Rattle.row_core.specs.Decoding.{Begins, NoneBegins};
ghost use Rattle.event_codec.specs.Spelling.{event_bytes, EventFits};

use crate::Readable;
use estate::{EdgeSizes, Names, PartName};
use graph_model::{Cause, Event, FileSizes, Subs};
use plan_model::Side;
use rect_cover::Assignment;
use row_core::{Bytes, NoMemory};
use std::alloc::Global;
use vertex_builder::NodeList;

/// The event that the bytes begin with, and the bytes after it.
pub fn read_event(alloc: Global, bytes: &[u8]) -> Result<Option<(Event, &[u8])>, NoMemory>
    ensures { IfOk result
        (λ read. MatchOption read (NoneBegins event_bytes EventFits bytes.now)
        (λ x. Begins event_bytes EventFits bytes.now x.0 x.1.now)) }
{
    match bytes {
        [1, rest @ ..] => read_opened(alloc, rest),
        [2, rest @ ..] => read_started(alloc, rest),
        [3, rest @ ..] => read_made(alloc, rest),
        [4, rest @ ..] => read_widened(alloc, rest),
        [5, rest @ ..] => read_decided(alloc, rest),
        [6, rest @ ..] => read_done(alloc, rest),
        [7, rest @ ..] => read_reset(alloc, rest),
        [8, rest @ ..] => read_trouble(alloc, rest),
        [9, rest @ ..] => read_ended(alloc, rest),
        _ => Ok(None),
    }
}

fn read_opened(alloc: Global, bytes: &[u8]) -> Result<Option<(Event, &[u8])>, NoMemory>
    ensures { IfOk result
        (λ read. MatchOption read (NoneBegins event_bytes EventFits (1 ∷ bytes.now))
        (λ x. Begins event_bytes EventFits (1 ∷ bytes.now) x.0 x.1.now)) }
{
    match u32::read(alloc, bytes)? {
        Some((epoch, rest)) => Ok(Some((Event::Opened { epoch }, rest))),
        None => Ok(None),
    }
}

fn read_started(alloc: Global, bytes: &[u8]) -> Result<Option<(Event, &[u8])>, NoMemory>
    ensures { IfOk result
        (λ read. MatchOption read (NoneBegins event_bytes EventFits (2 ∷ bytes.now))
        (λ x. Begins event_bytes EventFits (2 ∷ bytes.now) x.0 x.1.now)) }
{
    match <(Bytes, FileSizes) as Readable>::read(alloc, bytes)? {
        Some(((job, files), rest)) => Ok(Some((Event::Started { job, files }, rest))),
        None => Ok(None),
    }
}

fn read_made(alloc: Global, bytes: &[u8]) -> Result<Option<(Event, &[u8])>, NoMemory>
    ensures { IfOk result
        (λ read. MatchOption read (NoneBegins event_bytes EventFits (3 ∷ bytes.now))
        (λ x. Begins event_bytes EventFits (3 ∷ bytes.now) x.0 x.1.now)) }
{
    match <(u32, NodeList) as Readable>::read(alloc, bytes)? {
        Some(((vertex, nodes), rest)) => Ok(Some((Event::Made { vertex, nodes }, rest))),
        None => Ok(None),
    }
}

fn read_widened(alloc: Global, bytes: &[u8]) -> Result<Option<(Event, &[u8])>, NoMemory>
    ensures { IfOk result
        (λ read. MatchOption read (NoneBegins event_bytes EventFits (4 ∷ bytes.now))
        (λ x. Begins event_bytes EventFits (4 ∷ bytes.now) x.0 x.1.now)) }
{
    match <(u32, Side) as Readable>::read(alloc, bytes)? {
        Some(((node, side), rest)) => Ok(Some((Event::Widened { node, side }, rest))),
        None => Ok(None),
    }
}

fn read_decided(alloc: Global, bytes: &[u8]) -> Result<Option<(Event, &[u8])>, NoMemory>
    ensures { IfOk result
        (λ read. MatchOption read (NoneBegins event_bytes EventFits (5 ∷ bytes.now))
        (λ x. Begins event_bytes EventFits (5 ∷ bytes.now) x.0 x.1.now)) }
{
    match <(u32, Assignment) as Readable>::read(alloc, bytes)? {
        Some(((vertex, assignment), rest)) => Ok(Some((
            Event::Decided { vertex, assignment },
            rest,
        ))),
        None => Ok(None),
    }
}

fn read_done(alloc: Global, bytes: &[u8]) -> Result<Option<(Event, &[u8])>, NoMemory>
    ensures { IfOk result
        (λ read. MatchOption read (NoneBegins event_bytes EventFits (6 ∷ bytes.now))
        (λ x. Begins event_bytes EventFits (6 ∷ bytes.now) x.0 x.1.now)) }
{
    match <((PartName, Names), EdgeSizes) as Readable>::read(alloc, bytes)? {
        Some((((name, inputs), sizes), rest)) => Ok(Some((
            Event::Done {
                name,
                inputs,
                sizes,
            },
            rest,
        ))),
        None => Ok(None),
    }
}

fn read_reset(alloc: Global, bytes: &[u8]) -> Result<Option<(Event, &[u8])>, NoMemory>
    ensures { IfOk result
        (λ read. MatchOption read (NoneBegins event_bytes EventFits (7 ∷ bytes.now))
        (λ x. Begins event_bytes EventFits (7 ∷ bytes.now) x.0 x.1.now)) }
{
    match <(Names, Subs) as Readable>::read(alloc, bytes)? {
        Some(((gone, subtasks), rest)) => Ok(Some((Event::Reset { gone, subtasks }, rest))),
        None => Ok(None),
    }
}

fn read_trouble(alloc: Global, bytes: &[u8]) -> Result<Option<(Event, &[u8])>, NoMemory>
    ensures { IfOk result
        (λ read. MatchOption read (NoneBegins event_bytes EventFits (8 ∷ bytes.now))
        (λ x. Begins event_bytes EventFits (8 ∷ bytes.now) x.0 x.1.now)) }
{
    match Cause::read(alloc, bytes)? {
        Some((cause, rest)) => Ok(Some((Event::Trouble { cause }, rest))),
        None => Ok(None),
    }
}

fn read_ended(alloc: Global, bytes: &[u8]) -> Result<Option<(Event, &[u8])>, NoMemory>
    ensures { IfOk result
        (λ read. MatchOption read (NoneBegins event_bytes EventFits (9 ∷ bytes.now))
        (λ x. Begins event_bytes EventFits (9 ∷ bytes.now) x.0 x.1.now)) }
{
    match bool::read(alloc, bytes)? {
        Some((failed, rest)) => Ok(Some((Event::Ended { failed }, rest))),
        None => Ok(None),
    }
}
