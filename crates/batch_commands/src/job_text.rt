ghost use Rattle.std.specs.Prelude.{[], MatchResult};
ghost use Rattle.estate.specs.Contents.{KeepsContents};
ghost use Rattle.batch_commands.specs.Causes.{JobCause};
ghost use Rattle.batch_commands.specs.Outcomes.{IsMet};
ghost use Rattle.batch_commands.specs.Refusals.{answer_to};
ghost use Rattle.batch_commands.specs.Views.{ShowsJob};

use crate::accepted_job::read_accepted_job;
use crate::job_view::JobView;
use crate::refusal::Refusal;
use crate::tables::{list_tables, text_over};
use estate::Inputs;
use plan_text::{check_text, plan_text};
use row_core::Bytes;
use std::alloc::Global;

/// What is to be seen of the job that the inputs tell. `reference` reads the tables, the others the job's
/// text alone.
pub fn job_text<I: Inputs>(alloc: Global, view: JobView, inputs: &mut I) -> Result<Bytes, Refusal>
    ensures why { MatchResult result
        (ShowsJob view (I.contents inputs.old))
        (λ refusal. JobCause view []
        (I.contents inputs.old) (I.contents inputs.new) (answer_to refusal)) }
    ensures keeps { KeepsContents (I.contents inputs.old) (I.contents inputs.new) }
    ensures met { IsMet Refusal.InputFault
        (I.contents inputs.old).faults (I.contents inputs.new).faults result }
{
    let text = inputs.job_text()?;
    let job = read_accepted_job(alloc, &text)?;
    match view {
        JobView::Check => Ok(check_text(alloc, &job.plan)?),
        JobView::Plan => Ok(plan_text(alloc, &job.plan)?),
        JobView::Reference => {
            let tables = list_tables(alloc, inputs, &job.plan)?;
            Ok(text_over(alloc, inputs, &job.plan, tables)?)
        }
    }
}
