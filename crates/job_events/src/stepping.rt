ghost use Rattle.std.specs.Prelude.{◌<◌, ◌^◌, All, IfOk, MatchOption, length};
ghost use Rattle.event_codec.specs.Spelling.{EventFits};
ghost use Rattle.exec_graph.specs.Graphs.{GraphState as OneGraph};
ghost use Rattle.graph_model.specs.declared.event.Event.TheVariants.{Started};
ghost use Rattle.job_events.specs.Logs.{Advances, HasNone, IsNext, OpensFirst, Reopens, StartsJob};

use crate::{LogState, accepted_job, apply};
use exec_graph::{Event, FileSizes, Graph, GraphError};
use row_core::{Bytes, NoMemory};
use std::alloc::{AllocError, Global};

/// What comes of an event; none where it is not legal.
pub fn next_state(
    alloc: Global,
    state: LogState,
    event: &Event,
) -> Result<Option<LogState>, NoMemory>
    requires { EventFits event.now }
    ensures { IfOk result (λ next.
        MatchOption next (HasNone (IsNext state event.now)) (IsNext state event.now)) }
{
    match state {
        LogState::Empty => Ok(first_opened(event)),
        LogState::Awaiting { epoch } => started(alloc, epoch, event),
        LogState::Jobless { epoch } => Ok(reopened(epoch, event)),
        LogState::Running(graph) => advanced(graph, event),
    }
}

fn first_opened(event: &Event) -> Option<LogState>
    ensures { MatchOption result (HasNone (OpensFirst event.now)) (OpensFirst event.now) }
{
    match event {
        Event::Opened { epoch } => {
            let epoch = *epoch;
            if epoch > 0 {
                Some(LogState::Awaiting { epoch })
            } else {
                None
            }
        }
        _ => None,
    }
}

fn reopened(last: u32, event: &Event) -> Option<LogState>
    ensures { MatchOption result (HasNone (Reopens last event.now)) (Reopens last event.now) }
{
    match event {
        Event::Opened { epoch } => {
            let epoch = *epoch;
            if epoch > last {
                Some(LogState::Jobless { epoch })
            } else {
                None
            }
        }
        _ => None,
    }
}

fn started(alloc: Global, last: u32, event: &Event) -> Result<Option<LogState>, NoMemory>
    requires { EventFits event.now }
    ensures { IfOk result (λ next.
        MatchOption next (HasNone (StartsJob last event.now)) (StartsJob last event.now)) }
{
    match event {
        Event::Started { job, files } => start_job(alloc, last, job, files),
        _ => Ok(reopened(last, event)),
    }
}

fn start_job(
    alloc: Global,
    epoch: u32,
    text: &Bytes,
    files: &FileSizes,
) -> Result<Option<LogState>, NoMemory>
    requires few { All (λ sizes. length sizes < 2 ^ 32) files.now }
    ensures { IfOk result (λ next.
        MatchOption next (HasNone (StartsJob epoch (Started text.now files.now)))
        (StartsJob epoch (Started text.now files.now))) }
{
    let Some(job) = accepted_job(alloc, text)? else {
        return Ok(Some(LogState::Jobless { epoch }));
    };
    if files.as_slice().len() != job.tables {
        return Ok(None);
    }
    let mut graph = Graph::new(alloc, job.plan, job.settings, files)?;
    match graph.opened(epoch) {
        Ok(()) => Ok(Some(LogState::Running(graph))),
        Err(_) => Ok(None),
    }
}

fn advanced(mut graph: Graph, event: &Event) -> Result<Option<LogState>, NoMemory>
    ensures { IfOk result (λ next.
        MatchOption next (HasNone (Advances graph event.now)) (Advances graph event.now)) }
{
    match apply(&mut graph, event) {
        Ok(()) => Ok(Some(LogState::Running(graph))),
        Err(GraphError::Illegal | GraphError::NotCover) => Ok(None),
        Err(GraphError::NoMemory) => Err(AllocError),
    }
}
