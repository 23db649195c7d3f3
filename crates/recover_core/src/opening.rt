ghost use Rattle.std.specs.Prelude.{◌≡◌, ◌<◌, ◌∷◌, [], IfErr, IfOk, List, MatchOption};
ghost use Rattle.exec_graph.specs.Graphs.{GraphState as OneGraph};
ghost use Rattle.graph_model.specs.declared.event.Event.{Event as OneEvent};
ghost use Rattle.job_events.specs.Replays.{IsReplay};
ghost use Rattle.job_events.specs.declared.log_state.LogState.{LogState as OneState};
ghost use Rattle.job_events.specs.declared.log_state.LogState.TheVariants.{Running};
ghost use Rattle.estate.specs.Changes.{Leads, Stays};
ghost use Rattle.graph_model.specs.Legal.{IsOpen};
ghost use Rattle.graph_model.specs.declared.event.Event.TheVariants.{Opened, Started};
ghost use Rattle.recover_core.specs.Causes.{IsTooLong, IsUnopened};
ghost use Rattle.recover_core.specs.Opening.{MayReset, OpensFirst, OpensNext};

use crate::{RecoverError, StartedJob, gone_winners, reset_len};
use estate::{Estate, EstateError, Names};
use event_codec::encode;
use event_log::{Blocks, LOG_LIMIT};
use exec_graph::{Event, Events, Graph, GraphError};
use graph_vertices::copied_files;
use job_events::{LogState, ReplayError, ReplayedLog, replay};
use region_failover::closure;
use row_core::{Bytes, NoMemory};
use std::alloc::{AllocError, Global};

/// The events that begin a job, and its graph after them: what a log of these events is replayed to.
pub fn first_epoch(alloc: Global, job: &StartedJob) -> Result<(Events, Graph), NoMemory>
    ensures { IfOk result (λ (events, graph). OpensFirst job.now events graph) }
{
    job.can_start();
    let events = first_events(alloc, job)?;
    let body = encode(alloc, &events)?;
    let mut blocks = Blocks::new(alloc);
    blocks.push(body)?;
    match replayed_graph(alloc, &blocks)? {
        Some(graph) => Ok((events, graph)),
        None => unreachable!(),
    }
}

// The graph that blocks are replayed to; none where they are at fault or start no job.
fn replayed_graph(alloc: Global, blocks: &Blocks) -> Result<Option<Graph>, NoMemory>
    ensures { IfOk result (λ found. MatchOption found
        ((events : List OneEvent) (graph : OneGraph) → IsReplay blocks.now events (Running graph) → ⊥)
        (λ graph. (events : List OneEvent) (state : OneState)
        → IsReplay blocks.now events state → state ≡ Running graph)) }
{
    let ReplayedLog { state, .. } = match replay(alloc, blocks) {
        Ok(replayed) => replayed,
        Err(ReplayError::BadLog { .. }) => return Ok(None),
        Err(ReplayError::NoMemory) => return Err(AllocError),
    };
    match state {
        LogState::Running(graph) => Ok(Some(graph)),
        LogState::Empty | LogState::Awaiting { .. } | LogState::Jobless { .. } => Ok(None),
    }
}

fn first_events(alloc: Global, job: &StartedJob) -> Result<Events, NoMemory>
    ensures { IfOk result (λ events.
        events ≡ Opened 1 ∷ Started job.now.text job.now.given.files ∷ []) }
{
    let mut events = Vec::new(alloc);
    events.push(Event::Opened { epoch: 1 })?;
    events.push(Event::Started {
        job: Bytes::from_slice(alloc, job.text().as_slice())?,
        files: copied_files(alloc, job.files())?,
    })?;
    Ok(Events::from_vec(events))
}

/// The events that open the next epoch of a job, and its graph after them: the winners whose parts
/// the shelf does not hold are reset. `end` is where the log goes on.
pub fn next_epoch<E: Estate>(
    alloc: Global,
    estate: &mut E,
    mut graph: Graph,
    epoch: u32,
    end: u64,
) -> Result<(Events, Graph), RecoverError>
    requires running { IsOpen graph.job.given graph.job.state }
    requires later { graph.job.state.epoch < epoch }
    ensures stays { Leads Stays (E.world estate.old) (E.world estate.new) }
    ensures opens { IfOk result (λ (events, new).
        OpensNext graph epoch (E.world estate.new) events new) }
    ensures cause { IfErr result
        (IsUnopened graph epoch end (E.world estate.old) (E.world estate.new)) }
{
    let names = match estate.shelf_names() {
        Ok(names) => names,
        Err(EstateError::Failed) => return Err(RecoverError::ShelfFault),
        Err(EstateError::NoMemory) => return Err(RecoverError::NoMemory),
    };
    let mut events = Vec::new(alloc);
    events.push(Event::Opened { epoch })?;
    match graph.opened(epoch) {
        Ok(()) => {}
        Err(_) => unreachable!(),
    }
    match reset_lost(alloc, &mut graph, &names, end)? {
        None => Ok((Events::from_vec(events), graph)),
        Some(reset) => {
            events.push(reset)?;
            Ok((Events::from_vec(events), graph))
        }
    }
}

// Resets the winners whose parts are not among the names, where subtasks run again for them.
fn reset_lost(
    alloc: Global,
    graph: &mut Graph,
    names: &Names,
    end: u64,
) -> Result<Option<Event>, RecoverError>
    requires running { IsOpen graph.old.job.given graph.old.job.state }
    ensures reset { IfOk result (λ event. MayReset graph.old graph.new names.now event) }
    ensures cause { IfErr result (IsTooLong graph.old names.now end) }
{
    let gone = gone_winners(alloc, graph, names)?;
    let subtasks = closure(alloc, graph, &gone)?;
    if subtasks.as_slice().is_empty() {
        return Ok(None);
    }
    // A block behind the closed gate, of which five bytes open the epoch.
    let asked = u128::from(end) + 15 + reset_len(&gone, &subtasks);
    if asked > u128::from(LOG_LIMIT) {
        return Err(RecoverError::LogTooLarge { asked });
    }
    match graph.reset(&gone, &subtasks) {
        Ok(()) => Ok(Some(Event::Reset { gone, subtasks })),
        Err(GraphError::NoMemory) => Err(RecoverError::NoMemory),
        Err(GraphError::Illegal | GraphError::NotCover) => unreachable!(),
    }
}
