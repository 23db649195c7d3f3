ghost use Rattle.std.specs.Prelude.{◌≡◌, IfErr, IfOk, IsTrue, Some, None, if◌then◌else◌};
ghost use Rattle.estate.specs.Changes.{Leads, Stays};
ghost use Rattle.estate.specs.Holding.{job_under};
ghost use Rattle.recover_core.specs.Causes.{IsUnasked};

use crate::{RecoverError, StartedJob};
use estate::{Estate, EstateError};

/// Whether the job's commit stands.
pub fn is_committed<E: Estate>(estate: &mut E, job: &StartedJob) -> Result<bool, RecoverError>
    ensures stays { Leads Stays (E.world estate.old) (E.world estate.new) }
    ensures found { IfOk result (λ committed. IsTrue (E.world estate.old).told →
        job_under job.now.id (E.world estate.old).holding.commits
        ≡ (if committed then Some job.now.text else None)) }
    ensures cause { IfErr result (IsUnasked job.now (E.world estate.old) (E.world estate.new)) }
{
    match estate.sink_committed(job.id()) {
        Ok(None) => Ok(false),
        Ok(Some(other)) => {
            if other.equals(job.text()) {
                Ok(true)
            } else {
                Err(RecoverError::IdTaken { other })
            }
        }
        Err(EstateError::Failed) => Err(RecoverError::SinkFault),
        Err(EstateError::NoMemory) => Err(RecoverError::NoMemory),
    }
}
