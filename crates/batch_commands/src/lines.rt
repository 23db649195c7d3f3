ghost use Rattle.std.specs.Prelude.{◌≡◌, ◌++◌, [], IfOk};
ghost use Rattle.batch_commands.specs.Answers.{usage_word, text_word, plan_word, refused_word, quantity_word, unbuilt_word, node_word, name_word, line_of, printed_line};

use crate::{Answer, Quantity, RefusedKind, Unbuilt};
use batch_words::WordKind;
use job_json::JobFaultKind;
use plan_model::PlanKind;
use row_core::{Bytes, NoMemory};
use std::alloc::Global;

/// The line of an answer, with its line feed; `job` is the job's name. docs/FORMATS.md has the lines.
pub fn answer_line(alloc: Global, job: &[u8], answer: &Answer) -> Result<Bytes, NoMemory>
    ensures { IfOk result (λ line. line ≡ printed_line job.now answer.now) }
{
    let mut line = line_text(alloc, job, answer)?;
    line.push(b'\n')?;
    Ok(line)
}

fn line_text(alloc: Global, job: &[u8], answer: &Answer) -> Result<Bytes, NoMemory>
    ensures { IfOk result (λ line. line ≡ line_of job.now answer.now) }
{
    match answer {
        Answer::Finished => joined(alloc, b"finished job=", job),
        Answer::Shown | Answer::PrintFault => Ok(Bytes::new(alloc)),
        Answer::Usage { at, kind } => usage(alloc, *at, *kind),
        Answer::JobRefused { kind, node, name } => job_refused(alloc, *kind, *node, name),
        Answer::LogFault => Bytes::from_slice(alloc, b"log-fault"),
        Answer::SinkFault => Bytes::from_slice(alloc, b"sink-fault"),
        Answer::InputFault => Bytes::from_slice(alloc, b"input-fault"),
        Answer::BadLog { block, event } => bad_log(alloc, *block, *event),
        Answer::TooLarge { what, number } => too_large(alloc, *what, *number),
        Answer::NotBuilt { what } => joined(alloc, b"not-built ", unbuilt_word(*what)),
        Answer::NoMemory => Bytes::from_slice(alloc, b"no-memory"),
    }
}

fn usage(alloc: Global, at: u64, kind: WordKind) -> Result<Bytes, NoMemory>
    ensures { IfOk result (λ line. line ≡ line_of [] (Answer.Usage at kind)) }
{
    let place = at.to_string(alloc)?;
    let mut line = joined(alloc, b"usage at=", place.as_bytes())?;
    line.extend(b" ")?;
    line.extend(usage_word(kind))?;
    Ok(line)
}

fn job_refused(
    alloc: Global,
    kind: RefusedKind,
    node: Option<u32>,
    name: &Option<Bytes>,
) -> Result<Bytes, NoMemory>
    ensures { IfOk result (λ line. line ≡ line_of [] (Answer.JobRefused kind node name.now)) }
{
    let mut line = joined(alloc, b"job-refused ", refused_word(kind))?;
    line.extend(b" node=")?;
    line.extend(node_word(alloc, node)?.as_slice())?;
    line.extend(b" name=")?;
    line.extend(name_word(name))?;
    Ok(line)
}

fn bad_log(alloc: Global, block: u64, event: u64) -> Result<Bytes, NoMemory>
    ensures { IfOk result (λ line. line ≡ line_of [] (Answer.BadLog block event)) }
{
    let mut line = joined(alloc, b"bad-log block=", block.to_string(alloc)?.as_bytes())?;
    line.extend(b" event=")?;
    line.extend(event.to_string(alloc)?.as_bytes())?;
    Ok(line)
}

fn too_large(alloc: Global, what: Quantity, number: u128) -> Result<Bytes, NoMemory>
    ensures { IfOk result (λ line. line ≡ line_of [] (Answer.TooLarge what number)) }
{
    let mut line = joined(alloc, b"too-large ", quantity_word(what))?;
    line.extend(b"=")?;
    line.extend(number.to_string(alloc)?.as_bytes())?;
    Ok(line)
}

fn joined(alloc: Global, front: &[u8], back: &[u8]) -> Result<Bytes, NoMemory>
    ensures { IfOk result (λ text. text ≡ front.now ++ back.now) }
{
    let mut text = Bytes::from_slice(alloc, front)?;
    text.extend(back)?;
    Ok(text)
}

fn node_word(alloc: Global, node: Option<u32>) -> Result<Bytes, NoMemory>
    ensures { IfOk result (λ word. word ≡ node_word node) }
{
    match node {
        Some(node) => Bytes::from_slice(alloc, node.to_string(alloc)?.as_bytes()),
        None => Bytes::from_slice(alloc, b"-"),
    }
}

fn name_word(name: &Option<Bytes>) -> &[u8]
    ensures { result.now ≡ name_word name.now }
{
    match name {
        Some(name) => name.as_slice(),
        None => b"-",
    }
}

fn usage_word(kind: WordKind) -> &'static [u8]
    ensures { result.now ≡ usage_word kind }
{
    match kind {
        WordKind::NoCommand => b"no-command",
        WordKind::UnknownCommand => b"unknown-command",
        WordKind::UnknownWord => b"unknown-word",
        WordKind::MissingNumber => b"missing-number",
        WordKind::BadNumber => b"bad-number",
        WordKind::Repeated => b"repeated",
        WordKind::OtherCall => b"other-call",
    }
}

fn refused_word(kind: RefusedKind) -> &'static [u8]
    ensures { result.now ≡ refused_word kind }
{
    match kind {
        RefusedKind::Text(kind) => text_word(kind),
        RefusedKind::Plan(kind) => plan_word(kind),
    }
}

fn text_word(kind: JobFaultKind) -> &'static [u8]
    ensures { result.now ≡ text_word kind }
{
    match kind {
        JobFaultKind::NotJson => b"not-json",
        JobFaultKind::MissingMember => b"missing-member",
        JobFaultKind::UnknownOp => b"unknown-op",
        JobFaultKind::BadMember => b"bad-member",
        JobFaultKind::BadNumber => b"bad-number",
        JobFaultKind::BadExpr => b"bad-expr",
        JobFaultKind::UnknownMember => b"unknown-member",
        JobFaultKind::TooMany(_) => b"too-many",
    }
}

fn plan_word(kind: PlanKind) -> &'static [u8]
    ensures { result.now ≡ plan_word kind }
{
    match kind {
        PlanKind::BadInput => b"bad-input",
        PlanKind::NoKeys => b"no-keys",
        PlanKind::BadShip => b"bad-ship",
        PlanKind::BadColumn => b"bad-column",
        PlanKind::BadWidth => b"bad-width",
        PlanKind::TooWide => b"too-wide",
        PlanKind::NoSink => b"no-sink",
        PlanKind::Dangling => b"dangling",
        PlanKind::SameSink => b"same-sink",
    }
}

fn quantity_word(what: Quantity) -> &'static [u8]
    ensures { result.now ≡ quantity_word what }
{
    match what {
        Quantity::LogBytes => b"log_bytes",
    }
}

fn unbuilt_word(what: Unbuilt) -> &'static [u8]
    ensures { result.now ≡ unbuilt_word what }
{
    match what {
        Unbuilt::Commit => b"commit",
        Unbuilt::Generate => b"generate",
        Unbuilt::Workers => b"workers",
    }
}
