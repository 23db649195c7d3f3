ghost use Rattle.std.specs.Prelude.{◌≡◌, ◌⊎◌, ◌+◌, ◌*◌, ◌<◌, ◌≤◌, [], ◌∷◌, ◌++◌, length, map, nat_le, if◌then◌else◌, All, Contains, vec_len, vec_capacity, IfOk, OnOk};
ghost use Rattle.std.specs.List.{filter};
ghost use Rattle.estate.specs.declared.part_name.PartName.{PartName as Name};
ghost use Rattle.estate.specs.Holding.{job_under};
ghost use Rattle.estate.specs.Changes.{Rose};
ghost use Rattle.estate.specs.Calls.{LosesDue};
ghost use Rattle.estate.specs.Shelf.{held_in, LosesFrom};
ghost use Rattle.estate.specs.Pasts.{HasEnded, IsCounted, history, commits_in, commits_at, recalled_commit};

use crate::calls::Calls;
use crate::committed::Committed;
use crate::mem_log::MemLog;
use crate::mem_shelf::MemShelf;
use crate::shelved::Shelved;
use crate::{Commit, Commits, Edges, Estate, EstateError, Loss, Losses, Names, Numbers, PartName};
use row_core::{Bytes, NoMemory};
use std::alloc::Global;

/// An estate in memory. It keeps what happened to it, so that a crash may be tried at each moment.
/// Each call takes the time of its own work: the log is written in its place, a part is found by
/// its name.
#[derive(Debug, Drop)]
pub struct MemEstate {
    alloc: Global,
    calls: Calls,
    losing: Vec<Loss>,
    log: MemLog,
    shelf: MemShelf,
    sink: Vec<Committed>,
    // The moments at which `lose` dropped a part. It has room for all that are held.
    drops: Vec<u64>,
    log_faults: u64,
    shelf_faults: u64,
    sink_faults: u64,
    losses: u64,
    ghost ended: { HasEnded (history log.changes.items shelf.parts.items sink.items)
        (2 * calls.count + length drops.items) },
    ghost dropped: { All (λ drop. drop ≤ 2 * calls.count) drops.items },
    ghost room: { vec_len drops + length (held_in shelf.parts.items) ≤ vec_capacity drops },
}

impl MemEstate {
    ghost use Rattle.std.specs.Prelude.{◌≡◌, ◌≢◌, ◌+◌, ◌<◌, ◌≤◌, ◌^◌, [], true, false, Contains, IsTrue, IfOk, OnOk, IsErrOf};
    ghost use Rattle.estate.specs.declared.estate_error.EstateError.TheVariants.{NoMemory};
    ghost use Rattle.estate.specs.declared.part_name.PartName.{PartName as Named};
    ghost use Rattle.estate.specs.Changes.{Leads, Stays, LogCause, ShelfCause, SinkCause, LogSteady, ShelfSteady, SinkSteady, Rose};
    ghost use Rattle.estate.specs.Holding.{empty_holding, no_counts};
    ghost use Rattle.estate.specs.Pasts.{chosen};
    ghost use Rattle.estate.specs.Memory.{mem_world, clock_of, moments_of, time_of, past_of, HasEntered, IsCall, calls_of, failing_of, losing_of};

    /// An empty estate. Its calls are counted from 0: one whose number is in `failing` fails, and
    /// at the start of one that is in `losing` the part of that name is lost, if it is held.
    pub fn new(alloc: Global, failing: &Numbers, losing: &Losses) -> Result<MemEstate, NoMemory>
        ensures told { IfOk result (λ made. (mem_world made).told ≡ true) }
        ensures holding { IfOk result (λ made. (mem_world made).holding ≡ empty_holding) }
        ensures first { IfOk result (λ made. (mem_world made).now ≡ 0) }
        ensures counts { IfOk result (λ made. (mem_world made).counts ≡ no_counts) }
        ensures calls { IfOk result (λ made. calls_of made ≡ 0) }
        ensures failing { IfOk result (λ made. failing_of made ≡ failing.now) }
        ensures losing { IfOk result (λ made. losing_of made ≡ losing.now) }
    {
        Ok(MemEstate {
            alloc,
            calls: Calls::new(alloc, failing)?,
            losing: losing.as_slice().to_vec(alloc)?,
            log: MemLog::new(alloc),
            shelf: MemShelf::new(alloc),
            sink: Vec::new(alloc),
            drops: Vec::new(alloc),
            log_faults: 0,
            shelf_faults: 0,
            sink_faults: 0,
            losses: 0,
        })
    }

    /// How many moments there are: the beginning, then for each call one within it and one at its
    /// exit.
    pub fn moments(&self) -> u64
        ensures { result ≡ moments_of self.now }
    {
        2 * self.calls.count + 1
    }

    /// A copy of the sink's commits, the earliest first.
    pub fn commits(&self) -> Result<Commits, NoMemory>
        ensures { IfOk result (λ commits. commits ≡ (mem_world self.now).holding.commits) }
    {
        let commits = copy_commits(self.alloc, &self.sink)?;
        Ok(commits)
    }

    /// Drops the part of this name from what is held. Takes no memory, and no moment of its own:
    /// after it, a crash at the present moment leaves the part no longer.
    pub fn lose(&mut self, name: PartName)
        ensures leads { Leads Stays (mem_world self.old) (mem_world self.new) }
        ensures gone { ¬ (Contains (mem_world self.new).holding.held name) }
        ensures others { (other : Named) → other ≢ name →
            Contains (mem_world self.old).holding.held other →
            Contains (mem_world self.new).holding.held other }
        ensures rose { Contains (mem_world self.old).holding.held name →
            Rose (mem_world self.old).counts.losses (mem_world self.new).counts.losses }
        ensures calls { calls_of self.new ≡ calls_of self.old }
        ensures failing { failing_of self.new ≡ failing_of self.old }
        ensures losing { losing_of self.new ≡ losing_of self.old }
    {
        let since = self.clock() + 1;
        if self.shelf.lose(name, since) {
            self.losses = self.losses.saturating_add(1);
            self.drops.push_reserved(2 * self.calls.count);
        }
    }

    /// What a crash at a moment leaves: of the writes since the last sync none (choice 0), all (1),
    /// as many bytes 255 (2), or all but the second half of the last (3). All that was held then is
    /// held, and what was under way is not there, but for a write, which is one since the last
    /// sync. The estate that it leaves begins with its first moment; no call of it is to fail or to
    /// lose.
    pub fn crash(&self, moment: u64, choice: u32) -> Result<MemEstate, NoMemory>
        requires moment { moment < moments_of self.now }
        requires choice { choice ≤ 3 }
        ensures image { IfOk result (λ left.
            (mem_world self.now).images (time_of self.now moment) (mem_world left).holding) }
        ensures chosen { IfOk result (λ left.
            (mem_world left).holding ≡ chosen choice (past_of self.now moment)) }
        ensures first { IfOk result (λ made. (mem_world made).now ≡ 0) }
        ensures counts { IfOk result (λ made. (mem_world made).counts ≡ no_counts) }
        ensures calls { IfOk result (λ made. calls_of made ≡ 0) }
        ensures failing { IfOk result (λ made. failing_of made ≡ []) }
        ensures losing { IfOk result (λ made. losing_of made ≡ []) }
    {
        let time = self.time(moment);
        let shelf = self.shelf.crash(self.alloc, time)?;
        let mut drops = Vec::new(self.alloc);
        drops.reserve(shelf.parts.as_slice().len())?;
        Ok(MemEstate {
            alloc: self.alloc,
            calls: Calls::new(self.alloc, &Numbers::from_vec(Vec::new(self.alloc)))?,
            losing: Vec::new(self.alloc),
            log: self.log.crash(self.alloc, time, choice)?,
            shelf,
            sink: sink_at(self.alloc, &self.sink, time)?,
            drops,
            log_faults: 0,
            shelf_faults: 0,
            sink_faults: 0,
            losses: 0,
        })
    }

    fn clock(&self) -> u64
        ensures clock { result ≡ clock_of self.now }
        ensures small { result + 3 < 2 ^ 64 }
    {
        2 * self.calls.count + self.drops.as_slice().len() as u64
    }

    fn time(&self, moment: u64) -> u64
        requires { moment < moments_of self.now }
        ensures time { result ≡ time_of self.now moment }
        ensures past { result ≤ clock_of self.now }
    {
        moment + self.drops.iter().filter(|drop| **drop <= moment).count() as u64
    }

    // Counts a call, drops what is to be lost at its start, and says whether it is to fail.
    fn begin(&mut self) -> bool
        ensures leads { Leads Stays (mem_world self.old) (mem_world self.new) }
        ensures entered { result ≡ false → HasEntered self.old self.new }
        ensures call { IsCall (IsTrue result) self.old self.new }
        ensures log { self.new.log_faults ≡ self.old.log_faults }
        ensures shelf { self.new.shelf_faults ≡ self.old.shelf_faults }
        ensures sink { self.new.sink_faults ≡ self.old.sink_faults }
    {
        if self.calls.is_full() {
            return true;
        }
        let within = self.clock() + 1;
        lose_due(
            &self.losing,
            self.calls.count,
            within,
            &mut self.shelf,
            &mut self.losses,
        );
        self.calls.begin()
    }

    fn enter_log(&mut self) -> Result<(), EstateError>
        ensures leads { Leads Stays (mem_world self.old) (mem_world self.new) }
        ensures entered { OnOk result (HasEntered self.old self.new) }
        ensures call { IsCall (IsErrOf result EstateError.Failed) self.old self.new }
        ensures cause { LogCause (mem_world self.old) (mem_world self.new) result }
        ensures steady { LogSteady (mem_world self.old) (mem_world self.new) result }
        ensures failed { IsErrOf result NoMemory → ⊥ }
    {
        if self.begin() {
            self.log_faults = self.log_faults.saturating_add(1);
            return Err(EstateError::Failed);
        }
        Ok(())
    }

    fn enter_shelf(&mut self) -> Result<(), EstateError>
        ensures leads { Leads Stays (mem_world self.old) (mem_world self.new) }
        ensures entered { OnOk result (HasEntered self.old self.new) }
        ensures call { IsCall (IsErrOf result EstateError.Failed) self.old self.new }
        ensures cause { ShelfCause (mem_world self.old) (mem_world self.new) result }
        ensures steady { ShelfSteady (mem_world self.old) (mem_world self.new) result }
    {
        if self.begin() {
            self.shelf_faults = self.shelf_faults.saturating_add(1);
            return Err(EstateError::Failed);
        }
        Ok(())
    }

    fn enter_sink(&mut self) -> Result<(), EstateError>
        ensures leads { Leads Stays (mem_world self.old) (mem_world self.new) }
        ensures entered { OnOk result (HasEntered self.old self.new) }
        ensures call { IsCall (IsErrOf result EstateError.Failed) self.old self.new }
        ensures cause { SinkCause (mem_world self.old) (mem_world self.new) result }
        ensures steady { SinkSteady (mem_world self.old) (mem_world self.new) result }
    {
        if self.begin() {
            self.sink_faults = self.sink_faults.saturating_add(1);
            return Err(EstateError::Failed);
        }
        Ok(())
    }
}

// Drops the parts that are to be lost at a call.
fn lose_due(losing: &[Loss], call: u64, since: u64, shelf: &mut MemShelf, losses: &mut u64)
    ensures loses { LosesFrom since shelf.old.parts.items shelf.new.parts.items }
    ensures later { losses.old ≤ losses.new }
    ensures lost { IsCounted shelf.old.parts.items shelf.new.parts.items losses.old losses.new }
    ensures due { LosesDue losing.now call (held_in shelf.old.parts.items)
        (held_in shelf.new.parts.items) }
{
    for loss in losing {
        lose_if_due(loss, call, since, shelf, losses);
    }
}

fn lose_if_due(loss: &Loss, call: u64, since: u64, shelf: &mut MemShelf, losses: &mut u64)
    ensures loses { LosesFrom since shelf.old.parts.items shelf.new.parts.items }
    ensures later { losses.old ≤ losses.new }
    ensures lost { IsCounted shelf.old.parts.items shelf.new.parts.items losses.old losses.new }
    ensures due { LosesDue (loss.now ∷ []) call (held_in shelf.old.parts.items)
        (held_in shelf.new.parts.items) }
    ensures fewer { (name : Name) → Contains (held_in shelf.new.parts.items) name →
        Contains (held_in shelf.old.parts.items) name }
{
    if loss.call != call {
        return;
    }
    if shelf.lose(loss.name, since) {
        *losses = losses.saturating_add(1);
    }
}

fn copy_commits(alloc: Global, sink: &[Committed]) -> Result<Commits, NoMemory>
    ensures { IfOk result (λ commits. commits ≡ commits_in sink.now) }
{
    let mut commits = Commits::new(alloc);
    for entry in sink {
        commits.push(entry.commit.copy(alloc)?)?;
    }
    Ok(commits)
}

// The commits that stood at a moment, as they stand since the beginning.
fn sink_at(alloc: Global, sink: &[Committed], moment: u64) -> Result<Vec<Committed>, NoMemory>
    ensures commits { IfOk result (λ made. commits_in made.items ≡ commits_at moment sink.now) }
    ensures first { IfOk result (λ made. All (λ entry. entry.since ≡ 0) made.items) }
{
    let mut made = Vec::new(alloc);
    for entry in sink {
        recall(alloc, &mut made, entry, moment)?;
    }
    Ok(made)
}

// Adds a commit if it stood at a moment.
fn recall(
    alloc: Global,
    made: &mut Vec<Committed>,
    entry: &Committed,
    moment: u64,
) -> Result<(), NoMemory>
    ensures { OnOk result (made.new.items ≡ made.old.items
        ++ (if nat_le entry.now.since moment then recalled_commit entry.now ∷ [] else [])) }
{
    if entry.since > moment {
        return Ok(());
    }
    let commit = entry.commit.copy(alloc)?;
    made.push(Committed { since: 0, commit })?;
    Ok(())
}

// The job's text of the first commit of this id.
fn find_job(alloc: Global, sink: &[Committed], id: &Bytes) -> Result<Option<Bytes>, NoMemory>
    ensures { IfOk result (λ found. found ≡ job_under id.now (commits_in sink.now)) }
{
    for entry in sink {
        if entry.commit.id.equals(id) {
            return Ok(Some(Bytes::from_slice(alloc, entry.commit.job.as_slice())?));
        }
    }
    Ok(None)
}

impl Estate for MemEstate {
    ghost use Rattle.std.specs.Prelude.{IsTrue, IsErrOf, take, drop};
    ghost use Rattle.estate.specs.declared.estate_error.EstateError.TheVariants.{NoMemory};
    ghost use Rattle.estate.specs.Holding.{part_of, commit_of, IsFresh};
    ghost use Rattle.estate.specs.World.{IsDurable, AnswersCell};
    ghost use Rattle.estate.specs.Parts.{AnswersNames};
    ghost use Rattle.estate.specs.Changes.{Stays, Leads, Writes, Puts, Appends, Holds, HasPut, HasNotPut, HasAppended, LogCause, ShelfCause, SinkCause, LogSteady, ShelfSteady, SinkSteady};
    ghost use Rattle.estate.specs.Memory.{mem_world, history_of, clock_of, counts_of, moments_of, past_of, present_of, IsCall};
    ghost use Rattle.estate.specs.PastLaws.{past_lawful};

    ghost world = { mem_world };

    // Each call says more than the trait asks: it fails as listed and loses what is due, and four
    // say what a crash within them finds.

    fn log_len(&mut self) -> Result<u64, EstateError>
        ensures leads { Leads Stays (mem_world self.old) (mem_world self.new) }
        ensures len { IfOk result (λ len. IsTrue (mem_world self.old).told →
            len ≡ length (mem_world self.old).holding.log) }
        ensures cause { LogCause (mem_world self.old) (mem_world self.new) result }
        ensures steady { LogSteady (mem_world self.old) (mem_world self.new) result }
        ensures call { IsCall (IsErrOf result EstateError.Failed) self.old self.new }
    {
        self.enter_log()?;
        Ok(self.log.len())
    }

    fn log_read(&mut self, at: u64, len: u64) -> Result<Bytes, EstateError>
        requires { IsTrue (mem_world self.old).told →
            at + len ≤ length (mem_world self.old).holding.log }
        ensures leads { Leads Stays (mem_world self.old) (mem_world self.new) }
        ensures bytes { IfOk result (λ bytes. IsTrue (mem_world self.old).told →
            bytes ≡ take len (drop at (mem_world self.old).holding.log)) }
        ensures cause { LogCause (mem_world self.old) (mem_world self.new) result }
        ensures steady { LogSteady (mem_world self.old) (mem_world self.new) result }
        ensures call { IsCall (IsErrOf result EstateError.Failed) self.old self.new }
    {
        self.enter_log()?;
        Ok(self.log.read(self.alloc, at, len)?)
    }

    fn log_write(&mut self, at: u64, bytes: &Bytes) -> Result<(), EstateError>
        requires { IsTrue (mem_world self.old).told → at ≤ length (mem_world self.old).holding.log }
        ensures leads { Leads (Writes at bytes.now) (mem_world self.old) (mem_world self.new) }
        ensures written { OnOk result (IsTrue (mem_world self.old).told →
            Holds (mem_world self.old).holding.log at bytes.now (mem_world self.new).holding.log) }
        ensures memory { IsErrOf result NoMemory →
            Leads Stays (mem_world self.old) (mem_world self.new) }
        ensures cause { LogCause (mem_world self.old) (mem_world self.new) result }
        ensures steady { LogSteady (mem_world self.old) (mem_world self.new) result }
        ensures call { IsCall (IsErrOf result EstateError.Failed) self.old self.new }
        // a write under way is one since the last sync
        ensures under_way { OnOk result ((past_of self.new (moments_of self.old)).disk
            ≡ (present_of self.new).disk) }
    {
        self.enter_log()?;
        let within = self.clock() - 1;
        self.log.write(self.alloc, at, bytes, within)?;
        Ok(())
    }

    fn log_sync(&mut self) -> Result<(), EstateError>
        ensures leads { Leads Stays (mem_world self.old) (mem_world self.new) }
        ensures durable { OnOk result (IsDurable (mem_world self.new)) }
        ensures memory { IsErrOf result NoMemory → ⊥ }
        ensures cause { LogCause (mem_world self.old) (mem_world self.new) result }
        ensures steady { LogSteady (mem_world self.old) (mem_world self.new) result }
        ensures call { IsCall (IsErrOf result EstateError.Failed) self.old self.new }
        // a sync under way has not happened
        ensures under_way { OnOk result ((past_of self.new (moments_of self.old)).disk
            ≡ (present_of self.old).disk) }
    {
        self.enter_log()?;
        let exit = self.clock();
        self.log.sync(exit);
        Ok(())
    }

    fn shelf_put(&mut self, name: PartName, edges: &Edges) -> Result<(), EstateError>
        requires { IsTrue (mem_world self.old).told →
            IsFresh name (mem_world self.old).holding.ever }
        ensures leads { Leads (Puts (part_of name edges.now))
            (mem_world self.old) (mem_world self.new) }
        ensures put { OnOk result (IsTrue (mem_world self.old).told →
            HasPut (part_of name edges.now)
            (mem_world self.old).holding (mem_world self.new).holding) }
        ensures failed { IsErrOf result EstateError.Failed → IsTrue (mem_world self.old).told →
            HasPut (part_of name edges.now)
            (mem_world self.old).holding (mem_world self.new).holding
            ⊎ HasNotPut (part_of name edges.now)
            (mem_world self.old).holding (mem_world self.new).holding }
        ensures memory { IsErrOf result NoMemory →
            Leads Stays (mem_world self.old) (mem_world self.new) }
        ensures cause { ShelfCause (mem_world self.old) (mem_world self.new) result }
        ensures steady { ShelfSteady (mem_world self.old) (mem_world self.new) result }
        ensures call { IsCall (IsErrOf result EstateError.Failed) self.old self.new }
        // a part under way is not there
        ensures under_way { OnOk result ((past_of self.new (moments_of self.old)).ever
            ≡ (present_of self.old).ever) }
    {
        self.enter_shelf()?;
        let exit = self.clock();
        self.drops.reserve(self.shelf.parts.as_slice().len() + 1)?;
        let edges = edges.copy(self.alloc)?;
        self.shelf.add(Shelved {
            since: exit,
            name,
            edges,
            lost: None,
        })?;
        Ok(())
    }

    fn shelf_cell(
        &mut self,
        name: PartName,
        edge: u32,
        cell: u32,
    ) -> Result<Option<Bytes>, EstateError>
        ensures leads { Leads Stays (mem_world self.old) (mem_world self.new) }
        ensures cell { IfOk result (λ found. IsTrue (mem_world self.old).told →
            AnswersCell name edge cell (mem_world self.old) (mem_world self.new) found) }
        ensures cause { ShelfCause (mem_world self.old) (mem_world self.new) result }
        ensures steady { ShelfSteady (mem_world self.old) (mem_world self.new) result }
        ensures call { IsCall (IsErrOf result EstateError.Failed) self.old self.new }
    {
        self.enter_shelf()?;
        Ok(self.shelf.cell(self.alloc, name, edge, cell)?)
    }

    fn shelf_names(&mut self) -> Result<Names, EstateError>
        ensures leads { Leads Stays (mem_world self.old) (mem_world self.new) }
        ensures names { IfOk result (λ names. IsTrue (mem_world self.old).told →
            AnswersNames (mem_world self.new).holding.held names) }
        ensures cause { ShelfCause (mem_world self.old) (mem_world self.new) result }
        ensures steady { ShelfSteady (mem_world self.old) (mem_world self.new) result }
        ensures call { IsCall (IsErrOf result EstateError.Failed) self.old self.new }
    {
        self.enter_shelf()?;
        Ok(self.shelf.names(self.alloc)?)
    }

    fn sink_commit(&mut self, id: &Bytes, job: &Bytes, text: &Bytes) -> Result<(), EstateError>
        ensures leads { Leads (Appends (commit_of id.now job.now text.now))
            (mem_world self.old) (mem_world self.new) }
        ensures committed { OnOk result (IsTrue (mem_world self.old).told →
            HasAppended (commit_of id.now job.now text.now)
            (mem_world self.old).holding (mem_world self.new).holding) }
        ensures memory { IsErrOf result NoMemory →
            Leads Stays (mem_world self.old) (mem_world self.new) }
        ensures cause { SinkCause (mem_world self.old) (mem_world self.new) result }
        ensures steady { SinkSteady (mem_world self.old) (mem_world self.new) result }
        ensures call { IsCall (IsErrOf result EstateError.Failed) self.old self.new }
        // a commit under way is not there
        ensures under_way { OnOk result ((past_of self.new (moments_of self.old)).commits
            ≡ (present_of self.old).commits) }
    {
        self.enter_sink()?;
        let commit = Commit::from_slices(
            self.alloc,
            id.as_slice(),
            job.as_slice(),
            text.as_slice(),
        )?;
        let entry = Committed {
            since: self.clock(),
            commit,
        };
        self.sink.push(entry)?;
        Ok(())
    }

    fn sink_committed(&mut self, id: &Bytes) -> Result<Option<Bytes>, EstateError>
        ensures leads { Leads Stays (mem_world self.old) (mem_world self.new) }
        ensures found { IfOk result (λ found. IsTrue (mem_world self.old).told →
            found ≡ job_under id.now (mem_world self.old).holding.commits) }
        ensures cause { SinkCause (mem_world self.old) (mem_world self.new) result }
        ensures steady { SinkSteady (mem_world self.old) (mem_world self.new) result }
        ensures call { IsCall (IsErrOf result EstateError.Failed) self.old self.new }
    {
        self.enter_sink()?;
        Ok(find_job(self.alloc, &self.sink, id)?)
    }

    ghost lawful = { λ estate. past_lawful (history_of estate) (clock_of estate)
        (counts_of estate) estate.shelf.distinct };
}
