// Clauses on content hold where the estate tells what it holds. Every clause on time and crashes is
// one relation, `Leads`.
ghost use Rattle.std.specs.Prelude.{◌≡◌, ◌⊎◌, ◌+◌, ◌≤◌, [], ◌∷◌, ◌++◌, length, take, drop, IsTrue, IfOk, OnOk, IsErrOf};
ghost use Rattle.estate.specs.declared.estate_error.EstateError.TheVariants.{NoMemory};
ghost use Rattle.estate.specs.Holding.{part_of, commit_of, IsFresh, job_under};
ghost use Rattle.estate.specs.Parts.{AnswersNames};
ghost use Rattle.estate.specs.World.{World, IsWorld, IsDurable, AnswersCell};
ghost use Rattle.estate.specs.Changes.{Stays, Leads, Writes, Puts, Appends, Holds, HasPut, HasNotPut, HasAppended, LogCause, ShelfCause, SinkCause, LogSteady, ShelfSteady, SinkSteady};

use crate::{Edges, EstateError, Names, PartName};
use row_core::Bytes;

/// The log, the shelf and the sink of a job. Every call may lose parts that are held, and counts
/// that.
pub trait Estate {
    /// What it holds, what a crash may leave, and its counts.
    ghost world: { Self → World };

    /// The length of the log.
    fn log_len(&mut self) -> Result<u64, EstateError>
        ensures leads { Leads Stays (world self.old) (world self.new) }
        ensures len { IfOk result (λ len. IsTrue (world self.old).told →
            len ≡ length (world self.old).holding.log) }
        ensures cause { LogCause (world self.old) (world self.new) result }
        ensures steady { LogSteady (world self.old) (world self.new) result };

    /// These bytes of the log.
    fn log_read(&mut self, at: u64, len: u64) -> Result<Bytes, EstateError>
        requires { IsTrue (world self.old).told → at + len ≤ length (world self.old).holding.log }
        ensures leads { Leads Stays (world self.old) (world self.new) }
        ensures bytes { IfOk result (λ bytes. IsTrue (world self.old).told →
            bytes ≡ take len (drop at (world self.old).holding.log)) }
        ensures cause { LogCause (world self.old) (world self.new) result }
        ensures steady { LogSteady (world self.old) (world self.new) result };

    /// Writes over what is there, and past the end. Until a sync a crash may leave any bytes in the
    /// range.
    fn log_write(&mut self, at: u64, bytes: &Bytes) -> Result<(), EstateError>
        requires { IsTrue (world self.old).told → at ≤ length (world self.old).holding.log }
        ensures leads { Leads (Writes at bytes.now) (world self.old) (world self.new) }
        ensures written { OnOk result (IsTrue (world self.old).told →
            Holds (world self.old).holding.log at bytes.now (world self.new).holding.log) }
        ensures memory { IsErrOf result NoMemory → Leads Stays (world self.old) (world self.new) }
        ensures cause { LogCause (world self.old) (world self.new) result }
        ensures steady { LogSteady (world self.old) (world self.new) result };

    /// After it a crash leaves the log that a read gives.
    fn log_sync(&mut self) -> Result<(), EstateError>
        ensures leads { Leads Stays (world self.old) (world self.new) }
        ensures durable { OnOk result (IsDurable (world self.new)) }
        ensures memory { IsErrOf result NoMemory → ⊥ }
        ensures cause { LogCause (world self.old) (world self.new) result }
        ensures steady { LogSteady (world self.old) (world self.new) result };

    /// Puts a part on the shelf.
    fn shelf_put(&mut self, name: PartName, edges: &Edges) -> Result<(), EstateError>
        requires { IsTrue (world self.old).told → IsFresh name (world self.old).holding.ever }
        ensures leads { Leads (Puts (part_of name edges.now)) (world self.old) (world self.new) }
        ensures put { OnOk result (IsTrue (world self.old).told →
            HasPut (part_of name edges.now) (world self.old).holding (world self.new).holding) }
        ensures failed { IsErrOf result EstateError.Failed → IsTrue (world self.old).told →
            HasPut (part_of name edges.now) (world self.old).holding (world self.new).holding
            ⊎ HasNotPut (part_of name edges.now) (world self.old).holding (world self.new).holding }
        ensures memory { IsErrOf result NoMemory → Leads Stays (world self.old) (world self.new) }
        ensures cause { ShelfCause (world self.old) (world self.new) result }
        ensures steady { ShelfSteady (world self.old) (world self.new) result };

    /// A cell of a part, or `None` where the part is not held.
    fn shelf_cell(
        &mut self,
        name: PartName,
        edge: u32,
        cell: u32,
    ) -> Result<Option<Bytes>, EstateError>
        ensures leads { Leads Stays (world self.old) (world self.new) }
        ensures cell { IfOk result (λ found. IsTrue (world self.old).told →
            AnswersCell name edge cell (world self.old) (world self.new) found) }
        ensures cause { ShelfCause (world self.old) (world self.new) result }
        ensures steady { ShelfSteady (world self.old) (world self.new) result };

    /// The names that are held, in ascending order.
    fn shelf_names(&mut self) -> Result<Names, EstateError>
        ensures leads { Leads Stays (world self.old) (world self.new) }
        ensures names { IfOk result (λ names. IsTrue (world self.old).told →
            AnswersNames (world self.new).holding.held names) }
        ensures cause { ShelfCause (world self.old) (world self.new) result }
        ensures steady { ShelfSteady (world self.old) (world self.new) result };

    /// Appends a commit.
    fn sink_commit(&mut self, id: &Bytes, job: &Bytes, text: &Bytes) -> Result<(), EstateError>
        ensures leads { Leads (Appends (commit_of id.now job.now text.now))
            (world self.old) (world self.new) }
        ensures committed { OnOk result (IsTrue (world self.old).told →
            HasAppended (commit_of id.now job.now text.now)
            (world self.old).holding (world self.new).holding) }
        ensures memory { IsErrOf result NoMemory → Leads Stays (world self.old) (world self.new) }
        ensures cause { SinkCause (world self.old) (world self.new) result }
        ensures steady { SinkSteady (world self.old) (world self.new) result };

    /// The job's text of the first commit of this id.
    fn sink_committed(&mut self, id: &Bytes) -> Result<Option<Bytes>, EstateError>
        ensures leads { Leads Stays (world self.old) (world self.new) }
        ensures found { IfOk result (λ found. IsTrue (world self.old).told →
            found ≡ job_under id.now (world self.old).holding.commits) }
        ensures cause { SinkCause (world self.old) (world self.new) result }
        ensures steady { SinkSteady (world self.old) (world self.new) result };

    /// What holds between two calls.
    ghost lawful: { (estate : Self) → IsWorld (world estate) };
}
