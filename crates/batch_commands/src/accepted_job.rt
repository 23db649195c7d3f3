ghost use Rattle.std.specs.Prelude.{◌≡◌, IfOk, IfErr};
ghost use Rattle.job_json.specs.Texts.{printed_text};
ghost use Rattle.job_events.specs.Logs.{IsAccepted};
ghost use Rattle.batch_commands.specs.Jobs.{IsRefusalOf, job_of};

use crate::not_accepted::NotAccepted;
use job_json::{print_job, read_job};
use plan_model::{GoodPlan, Settings, check_plan};
use row_core::Bytes;
use std::alloc::Global;

/// A job whose text and plan are accepted.
#[derive(Debug, Drop)]
pub struct AcceptedJob {
    pub name: Bytes,
    pub plan: GoodPlan,
    pub settings: Settings,
    /// The text that the job is printed as, which goes with its commit.
    pub text: Bytes,
}

/// The job of a text, or the first fault of the text or of its plan.
pub fn read_accepted_job(alloc: Global, text: &Bytes) -> Result<AcceptedJob, NotAccepted>
    ensures accepted { IfOk result (λ job. IsAccepted text.now (job_of job)) }
    ensures text { IfOk result (λ job. job.text ≡ printed_text (job_of job)) }
    ensures refused { IfErr result (IsRefusalOf text.now) }
{
    let job = read_job(alloc, text)?;
    let text = print_job(alloc, &job)?;
    let plan = check_plan(alloc, job.plan)?;
    Ok(AcceptedJob {
        name: job.name,
        plan,
        settings: job.settings,
        text,
    })
}
