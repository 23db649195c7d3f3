ghost use Rattle.std.specs.Prelude.{◌≡◌, ◌++◌, [], IfOk, OnOk};
ghost use Rattle.event_codec.specs.Spelling.{IsLong, AreFit, EventFits, EventsFit};
ghost use Rattle.event_text.specs.Lines.{cause_text, side_word, end_word, event_text, event_lines};
ghost use Rattle.graph_model.specs.declared.event.Event.TheVariants.{Started, Made, Widened, Decided, Done, Reset};

use crate::texts::{put_labelled, put_name, put_nodes, put_subs};
use crate::totals::{number_in_all, sum_of_all};
use estate::{EdgeSizes, Names, PartName, Sizes};
use graph_model::{Cause, Event, Events, Subs};
use plan_model::Side;
use rect_cover::Assignment;
use row_core::{Bytes, NoMemory};
use std::alloc::Global;
use vertex_builder::NodeList;

/// A line for each event, as `events` prints them; docs/FORMATS.md has the lines. Events that were
/// decoded fit.
pub fn event_lines(alloc: Global, events: &Events) -> Result<Bytes, NoMemory>
    requires { EventsFit events.now }
    ensures { IfOk result (λ text. text ≡ event_lines events.now) }
{
    let mut text = Bytes::new(alloc);
    for event in events.as_slice() {
        put_event(&mut text, event)?;
        text.push(b'\n')?;
    }
    Ok(text)
}

fn put_event(text: &mut Bytes, event: &Event) -> Result<(), NoMemory>
    requires { EventFits event.now }
    ensures { OnOk result (text.new ≡ text.old ++ event_text event.now) }
{
    match event {
        Event::Opened { epoch } => put_labelled(text, b"opened ", u128::from(*epoch)),
        Event::Started { files, .. } => put_started(text, files.as_slice()),
        Event::Made { vertex, nodes } => put_made(text, *vertex, nodes),
        Event::Widened { node, side } => put_widened(text, *node, *side),
        Event::Decided { vertex, assignment } => put_decided(text, *vertex, assignment),
        Event::Done {
            name,
            inputs,
            sizes,
        } => put_done(text, *name, inputs, sizes),
        Event::Reset { gone, subtasks } => put_reset(text, gone, subtasks),
        Event::Trouble { cause } => {
            text.extend(b"trouble ")?;
            put_cause(text, *cause)
        }
        Event::Ended { failed } => {
            text.extend(b"ended ")?;
            text.extend(end_word(*failed))
        }
    }
}

// The line says nothing of the job's text.
fn put_started(text: &mut Bytes, files: &[Sizes]) -> Result<(), NoMemory>
    requires { AreFit (AreFit IsLong) files.now }
    ensures { OnOk result (text.new ≡ text.old ++ event_text (Started [] files.now)) }
{
    put_labelled(text, b"started files=", number_in_all(files))?;
    put_labelled(text, b" bytes=", sum_of_all(files))
}

fn put_made(text: &mut Bytes, vertex: u32, nodes: &NodeList) -> Result<(), NoMemory>
    ensures { OnOk result (text.new ≡ text.old ++ event_text (Made vertex nodes.now)) }
{
    put_labelled(text, b"made ", u128::from(vertex))?;
    text.extend(b" nodes=")?;
    put_nodes(text, nodes.as_slice())
}

fn put_widened(text: &mut Bytes, node: u32, side: Side) -> Result<(), NoMemory>
    ensures { OnOk result (text.new ≡ text.old ++ event_text (Widened node side)) }
{
    put_labelled(text, b"widened ", u128::from(node))?;
    text.extend(b" ")?;
    text.extend(side_word(side))
}

fn put_decided(text: &mut Bytes, vertex: u32, assignment: &Assignment) -> Result<(), NoMemory>
    ensures { OnOk result (text.new ≡ text.old ++ event_text (Decided vertex assignment.now)) }
{
    put_labelled(text, b"decided ", u128::from(vertex))?;
    put_labelled(text, b" subtasks=", assignment.as_slice().len() as u128)
}

fn put_done(
    text: &mut Bytes,
    name: PartName,
    inputs: &Names,
    sizes: &EdgeSizes,
) -> Result<(), NoMemory>
    requires { AreFit (AreFit IsLong) sizes.now }
    ensures { OnOk result (text.new ≡ text.old ++ event_text (Done name inputs.now sizes.now)) }
{
    text.extend(b"done ")?;
    put_name(text, name)?;
    put_labelled(text, b" inputs=", inputs.as_slice().len() as u128)?;
    put_labelled(text, b" bytes=", sum_of_all(sizes.as_slice()))
}

fn put_reset(text: &mut Bytes, gone: &Names, subtasks: &Subs) -> Result<(), NoMemory>
    ensures { OnOk result (text.new ≡ text.old ++ event_text (Reset gone.now subtasks.now)) }
{
    put_labelled(text, b"reset gone=", gone.as_slice().len() as u128)?;
    text.extend(b" subtasks=")?;
    put_subs(text, subtasks.as_slice())
}

fn put_cause(text: &mut Bytes, cause: Cause) -> Result<(), NoMemory>
    ensures { OnOk result (text.new ≡ text.old ++ cause_text cause) }
{
    match cause {
        Cause::Gate { name, code } => {
            text.extend(b"gate ")?;
            put_name(text, name)?;
            put_labelled(text, b" code=", u128::from(code))
        }
        Cause::Lost { name } => {
            text.extend(b"lost ")?;
            put_name(text, name)
        }
    }
}

fn side_word(side: Side) -> &'static [u8]
    ensures { result.now ≡ side_word side }
{
    match side {
        Side::Left => b"left",
        Side::Right => b"right",
    }
}

fn end_word(failed: bool) -> &'static [u8]
    ensures { result.now ≡ end_word failed }
{
    if failed { b"failed" } else { b"finished" }
}
