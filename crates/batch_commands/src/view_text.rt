ghost use Rattle.std.specs.Prelude.{Ok, [], MatchResult};
ghost use Rattle.estate.specs.Changes.{Leads, Stays};
ghost use Rattle.batch_commands.specs.Causes.{LookCause, outside};
ghost use Rattle.batch_commands.specs.Outcomes.{IsMet};
ghost use Rattle.batch_commands.specs.Refusals.{answer_to};
ghost use Rattle.batch_commands.specs.Views.{Shows};
ghost use Rattle.batch_commands.specs.declared.log_refusal.LogRefusal.TheVariants as log;

use crate::events_text::events_text;
use crate::job_text::job_text;
use crate::refusal::Refusal;
use crate::view::View;
use estate::{Estate, Inputs};
use row_core::Bytes;
use std::alloc::Global;

/// What is to be seen: of the job, which the inputs tell, or of the estate's log.
pub fn view_text<E: Estate, I: Inputs>(
    alloc: Global,
    view: View,
    estate: &mut E,
    inputs: &mut I,
) -> Result<Bytes, Refusal>
    ensures why { MatchResult result
        (Shows view (I.contents inputs.old) (E.world estate.old))
        (λ refusal. LookCause (Ok view) []
        (outside (I.contents inputs.old) (E.world estate.old))
        (outside (I.contents inputs.new) (E.world estate.new)) (answer_to refusal)) }
    ensures writes_nothing { Leads Stays (E.world estate.old) (E.world estate.new) }
    ensures input_met { IsMet Refusal.InputFault
        (I.contents inputs.old).faults (I.contents inputs.new).faults result }
    ensures log_met { IsMet (Refusal.Log log.Fault) (E.world estate.old).counts.log_faults
        (E.world estate.new).counts.log_faults result }
{
    match view {
        View::OfJob(view) => job_text(alloc, view, inputs),
        View::Events => Ok(events_text(alloc, estate)?),
    }
}
