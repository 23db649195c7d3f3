ghost use Rattle.std.specs.Prelude.{◌≡◌, length, IfOk, IfSome, MatchOption};
ghost use Rattle.plan_model.specs.TableNames.{tables_of};
ghost use Rattle.job_events.specs.Logs.{IsAccepted, IsRefused};

use job_json::{JobError, read_job};
use plan_model::{GoodPlan, PlanError, Settings, check_plan, tables_of};
use row_core::{Bytes, NoMemory};
use std::alloc::{AllocError, Global};

/// A job whose text and plan are accepted.
#[derive(Debug, Drop)]
pub struct AcceptedJob {
    pub name: Bytes,
    pub plan: GoodPlan,
    pub settings: Settings,
    /// How many tables its plan reads.
    pub tables: usize,
}

/// The job of a text; none where the text or its plan is refused.
pub fn accepted_job(alloc: Global, text: &Bytes) -> Result<Option<AcceptedJob>, NoMemory>
    ensures job { IfOk result (λ found. MatchOption found (IsRefused text.now)
        (λ job. IsAccepted text.now
        (record { name = job.name; plan = job.plan; settings = job.settings }))) }
    ensures tables { IfOk result (λ found. IfSome found
        (λ job. job.tables ≡ length (tables_of job.plan))) }
{
    let job = match read_job(alloc, text) {
        Ok(job) => job,
        Err(JobError::Fault(_)) => return Ok(None),
        Err(JobError::NoMemory) => return Err(AllocError),
    };
    let tables = tables_of(alloc, &job.plan)?.as_slice().len();
    match check_plan(alloc, job.plan) {
        Ok(plan) => Ok(Some(AcceptedJob {
            name: job.name,
            plan,
            settings: job.settings,
            tables,
        })),
        Err(PlanError::Fault(_)) => Ok(None),
        Err(PlanError::NoMemory) => Err(AllocError),
    }
}
