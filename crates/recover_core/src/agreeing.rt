ghost use Rattle.std.specs.Prelude.{◌≡◌, IfErr, IfOk};
ghost use Rattle.recover_core.specs.Phases.{Disagree, IsPhase};
ghost use Rattle.recover_core.specs.Standing.{IsStanding};

use crate::{Phase, RecoverError, Standing, first_unfinished};
use exec_graph::Graph;

/// What is left of a job, or how its log and its sink disagree. `limit` is how many troubles it may
/// have.
pub fn phase_of(
    graph: &Graph,
    standing: Standing,
    limit: u32,
    committed: bool,
) -> Result<Phase, RecoverError>
    requires standing { IsStanding graph.now.job.state standing }
    requires limit { limit ≡ graph.now.job.given.settings.restart_limit }
    ensures ok { IfOk result (IsPhase graph.now.job committed) }
    ensures cause { IfErr result (Disagree graph.now.job committed) }
{
    if committed && !graph.complete() {
        return Err(RecoverError::AlreadyCommitted {
            unfinished: first_unfinished(graph.job().vertices()),
        });
    }
    match standing.ended {
        Some(false) => {
            if committed {
                Ok(Phase::Finished)
            } else {
                Err(RecoverError::LostCommit)
            }
        }
        Some(true) => Ok(Phase::Failed),
        None => {
            if standing.troubles > u64::from(limit) {
                Ok(Phase::Failed)
            } else if committed {
                Ok(Phase::Committed)
            } else {
                Ok(Phase::Going)
            }
        }
    }
}
