ghost use Rattle.std.specs.Prelude.{◌≡◌, Ok, IsTrue, IsSome, IsErrOf};
ghost use Rattle.estate.specs.Holding.{job_under, commit_of};
ghost use Rattle.estate.specs.Changes.{Stays, Leads, SinkRose};
ghost use Rattle.sink_commit.specs.Answers.{Answers, AnswersFaults, AddsAs, Lands};

use crate::{CommitError, Committed};
use estate::Estate;
use row_core::Bytes;

/// Commits the text of a job under an id, unless a commit stands there. It asks the sink first, and
/// appends at most once. The same job is told by its text, whatever text it committed.
pub fn commit_once<E: Estate>(
    estate: &mut E,
    id: &Bytes,
    job: &Bytes,
    text: &Bytes,
) -> Result<Committed, CommitError>
    ensures answer { IsTrue (E.world estate.old).told →
        Answers (commit_of id.now job.now text.now) (E.world estate.old)
        (E.world estate.new) result }

    // each image since the start is one of the start, alone or, where the answer allows it, with
    // the commit
    ensures adds { Leads (AddsAs (commit_of id.now job.now text.now) result)
        (E.world estate.old) (E.world estate.new) }

    // whatever the answer, nothing is added where a commit of the id stands
    ensures asks { IsTrue (E.world estate.old).told →
        IsSome (job_under id.now (E.world estate.old).holding.commits) →
        Leads Stays (E.world estate.old) (E.world estate.new) }

    // once it is appended, each image has it
    ensures lands { result ≡ Ok Committed.Fresh → IsTrue (E.world estate.old).told →
        Lands (commit_of id.now job.now text.now) (E.world estate.old) (E.world estate.new) }

    ensures fault { IsErrOf result CommitError.SinkFault →
        SinkRose (E.world estate.old) (E.world estate.new) }
    ensures met { AnswersFaults (E.world estate.old) (E.world estate.new) result }
{
    match estate.sink_committed(id)? {
        Some(other) => {
            if other.equals(job) {
                Ok(Committed::Before)
            } else {
                Err(CommitError::IdTaken { other })
            }
        }
        None => {
            estate.sink_commit(id, job, text)?;
            Ok(Committed::Fresh)
        }
    }
}
