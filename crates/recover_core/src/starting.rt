ghost use Rattle.std.specs.Prelude.{◌≡◌, ◌≢◌, ◌<◌, [], IfErr, IfOk, List, ℕ, OnOk, get_or, length, slice_get};
ghost use Rattle.job_events.specs.Logs.{LeadsTo};
ghost use Rattle.job_events.specs.declared.log_state.LogState.TheVariants.{Empty};
ghost use Rattle.recover_core.specs.Causes.{IsChange, IsOtherStart};
ghost use Rattle.recover_core.specs.Starting.{IsOwn, Starts, StartsAs};

use crate::{RecoverError, Standing, StartedJob, first_change, first_difference};
use exec_graph::{Events, Graph};
use graph_model::{Event, FileSizes};
use job_events::{LogState, started_jobs_fold};

/// The graph of this job, and how far it has come, by the events that were read of its log.
pub fn own_graph(
    job: &StartedJob,
    events: &Events,
    state: LogState,
) -> Result<(Graph, Standing), RecoverError>
    requires leads { LeadsTo Empty events.now state }
    requires some { events.now ≢ [] }
    ensures own { IfOk result (λ (graph, standing). IsOwn job.now events.now graph standing) }
    ensures cause { IfErr result (IsOtherStart job.now events.now) }
{
    started_jobs_fold();
    job.can_start();
    check_start(job, events.as_slice())?;
    match state {
        LogState::Running(graph) => Ok((graph, Standing::of(events.as_slice()))),
        LogState::Empty | LogState::Awaiting { .. } | LogState::Jobless { .. } => unreachable!(),
    }
}

// Whether events are this job's: its text and its files' sizes stand second.
fn check_start(job: &StartedJob, events: &[Event]) -> Result<(), RecoverError>
    requires tables { (files : List (List ℕ)) → Starts events.now job.now.text files
        → length files ≡ length job.now.given.files }
    ensures ok { OnOk result (StartsAs job.now events.now) }
    ensures cause { IfErr result (IsOtherStart job.now events.now) }
{
    match events.get(1) {
        Some(Event::Started { job: text, files }) => {
            if let Some(at) = first_difference(text.as_slice(), job.text().as_slice()) {
                return Err(RecoverError::OtherJob { at: at as u64 });
            }
            check_files(files, job.files())
        }
        _ => Err(RecoverError::OtherJob { at: 0 }),
    }
}

fn check_files(old: &FileSizes, new: &FileSizes) -> Result<(), RecoverError>
    requires { length old.now ≡ length new.now }
    ensures ok { OnOk result (old.now ≡ new.now) }
    ensures cause { IfErr result (IsChange old.now new.now) }
{
    match first_change(old, new) {
        None => Ok(()),
        Some((table, file)) => Err(RecoverError::InputChanged {
            table: table as u64,
            file: file as u64,
            was: size_at(old, table, file),
            now: size_at(new, table, file),
        }),
    }
}

fn size_at(files: &FileSizes, table: usize, file: usize) -> Option<u64>
    requires { table < length files.now }
    ensures { result ≡ slice_get (get_or files.now table []) file }
{
    files.as_slice()[table].as_slice().get(file).copied()
}
