ghost use Rattle.std.specs.Prelude.{None, [], IfErr, MatchResult};
ghost use Rattle.estate.specs.Contents.{KeepsContents};
ghost use Rattle.batch_commands.specs.Causes.{HasFinished, RunCause, outside};
ghost use Rattle.batch_commands.specs.Commits.{MayCommit, StaysUnlessFailed};
ghost use Rattle.batch_commands.specs.Outcomes.{IsMet};
ghost use Rattle.batch_commands.specs.Refusals.{answer_to};

use crate::Answer;
use crate::accepted_job::read_accepted_job;
use crate::lines::answer_line;
use crate::refusal::Refusal;
use crate::tables::{list_tables, text_over};
use estate::{Estate, Inputs};
use row_core::Bytes;
use std::alloc::Global;

/// Commits the job that the inputs tell, and gives the line to print. The sink is asked before a table
/// is read, and all memory is taken before the commit.
pub fn commit_job<E: Estate, I: Inputs>(
    alloc: Global,
    estate: &mut E,
    inputs: &mut I,
) -> Result<Bytes, Refusal>
    ensures why { MatchResult result
        (HasFinished (I.contents inputs.old) (E.world estate.old) (E.world estate.new))
        (λ refusal. RunCause None [] (outside (I.contents inputs.old) (E.world estate.old))
        (outside (I.contents inputs.new) (E.world estate.new)) (answer_to refusal)) }
    ensures stays { IfErr result (λ refusal.
        StaysUnlessFailed (E.world estate.old) (E.world estate.new) (answer_to refusal)) }
    ensures keeps { KeepsContents (I.contents inputs.old) (I.contents inputs.new) }
    ensures input_met { IsMet Refusal.InputFault
        (I.contents inputs.old).faults (I.contents inputs.new).faults result }
    ensures sink_met { IsMet Refusal.SinkFault (E.world estate.old).counts.sink_faults
        (E.world estate.new).counts.sink_faults result }
    ensures adds { MayCommit (I.contents inputs.old) (E.world estate.old) (E.world estate.new) }
{
    let text = inputs.job_text()?;
    let job = read_accepted_job(alloc, &text)?;
    let tables = list_tables(alloc, inputs, &job.plan)?;
    if estate.sink_committed(&job.name)?.is_some() {
        return Err(Refusal::IdTaken);
    }
    let committed = text_over(alloc, inputs, &job.plan, tables)?;
    let line = answer_line(alloc, job.name.as_slice(), &Answer::Finished)?;
    estate.sink_commit(&job.name, &job.text, &committed)?;
    Ok(line)
}
