ghost use Rattle.std.specs.Prelude.{◌≡◌, [], map, length, IfOk, MatchOption};
ghost use Rattle.estate.specs.Contents.{files_in};

use crate::calls::Calls;
use crate::{Files, InputError, Inputs, Numbers, Sizes, Table, Tables};
use row_core::{Bytes, NoMemory};
use std::alloc::Global;

/// Inputs in memory. They count their calls from 0.
#[derive(Debug, Drop)]
pub struct MemInputs {
    alloc: Global,
    job: Bytes,
    tables: Tables,
    calls: Calls,
    faults: u64,
}

impl MemInputs {
    ghost use Rattle.std.specs.Prelude.{◌≡◌, ◌≤◌, ℕ, List, true, IfOk, IsErrOf};
    ghost use Rattle.estate.specs.Calls.{FailsAsListed};
    ghost use Rattle.estate.specs.Changes.{InputCause, InputSteady};
    ghost use Rattle.estate.specs.Contents.{files_in};
    ghost use Rattle.estate.specs.Memory.{mem_contents};

    /// A call whose number is in `failing` fails. A table that is lacking has no files.
    pub fn new(
        alloc: Global,
        job: &Bytes,
        tables: &Tables,
        failing: &Numbers,
    ) -> Result<MemInputs, NoMemory>
        ensures told { IfOk result (λ made. (mem_contents made).told ≡ true) }
        ensures job { IfOk result (λ made. (mem_contents made).job ≡ job.now) }
        ensures files { IfOk result (λ made. (table : List ℕ) →
            (mem_contents made).files table ≡ files_in tables.now table) }
        ensures faults { IfOk result (λ made. (mem_contents made).faults ≡ 0) }
        ensures calls { IfOk result (λ made. made.calls.count ≡ 0) }
        ensures failing { IfOk result (λ made. made.calls.failing.items ≡ failing.now) }
    {
        Ok(MemInputs {
            alloc,
            job: Bytes::from_slice(alloc, job.as_slice())?,
            tables: tables.copy(alloc)?,
            calls: Calls::new(alloc, failing)?,
            faults: 0,
        })
    }

    // Counts a call. Where it is to fail, it counts a fault too.
    fn begin(calls: &mut Calls, faults: &mut u64) -> Result<(), InputError>
        ensures call { FailsAsListed (IsErrOf result InputError.Failed) calls.old calls.new }
        ensures cause { InputCause faults.old faults.new result }
        ensures steady { InputSteady faults.old faults.new result }
        ensures later { faults.old ≤ faults.new }
    {
        if calls.begin() {
            *faults = faults.saturating_add(1);
            return Err(InputError::Failed);
        }
        Ok(())
    }
}

// The files of the first entry of a table.
fn files_of<'a>(tables: &'a [Table], name: &Bytes) -> Option<&'a Files>
    ensures { MatchOption result (files_in tables.now name.now ≡ []) (λ files. files.now
        ≡ files_in tables.now name.now) }
{
    for table in tables {
        if table.table.equals(name) {
            return Some(&table.files);
        }
    }
    None
}

impl Inputs for MemInputs {
    ghost use Rattle.std.specs.Prelude.{◌<◌, slice_index_or, IsTrue, IsErrOf};
    ghost use Rattle.estate.specs.Calls.{FailsAsListed};
    ghost use Rattle.estate.specs.Changes.{InputCause, InputSteady};
    ghost use Rattle.estate.specs.Contents.{KeepsContents};
    ghost use Rattle.estate.specs.Memory.{mem_contents};

    ghost contents = { mem_contents };

    // Each call says more than the trait asks: it fails as listed.

    fn job_text(&mut self) -> Result<Bytes, InputError>
        ensures keeps { KeepsContents (mem_contents self.old) (mem_contents self.new) }
        ensures text { IfOk result (λ text. IsTrue (mem_contents self.old).told →
            text ≡ (mem_contents self.old).job) }
        ensures cause { InputCause (mem_contents self.old).faults
            (mem_contents self.new).faults result }
        ensures steady { InputSteady (mem_contents self.old).faults
            (mem_contents self.new).faults result }
        ensures call { FailsAsListed
            (IsErrOf result InputError.Failed) self.old.calls self.new.calls }
    {
        Self::begin(&mut self.calls, &mut self.faults)?;
        Ok(Bytes::from_slice(self.alloc, self.job.as_slice())?)
    }

    fn file_sizes(&mut self, table: &Bytes) -> Result<Sizes, InputError>
        ensures keeps { KeepsContents (mem_contents self.old) (mem_contents self.new) }
        ensures sizes { IfOk result (λ sizes. IsTrue (mem_contents self.old).told →
            sizes ≡ map length ((mem_contents self.old).files table.now)) }
        ensures cause { InputCause (mem_contents self.old).faults
            (mem_contents self.new).faults result }
        ensures steady { InputSteady (mem_contents self.old).faults
            (mem_contents self.new).faults result }
        ensures call { FailsAsListed
            (IsErrOf result InputError.Failed) self.old.calls self.new.calls }
    {
        Self::begin(&mut self.calls, &mut self.faults)?;
        match files_of(self.tables.as_slice(), table) {
            Some(files) => Ok(sizes_of(self.alloc, files.as_slice())?),
            None => Ok(Sizes::new(self.alloc)),
        }
    }

    fn read_file(&mut self, table: &Bytes, file: u32) -> Result<Bytes, InputError>
        requires { IsTrue (mem_contents self.old).told →
            file < length ((mem_contents self.old).files table.now) }
        ensures keeps { KeepsContents (mem_contents self.old) (mem_contents self.new) }
        ensures bytes { IfOk result (λ bytes. IsTrue (mem_contents self.old).told →
            bytes ≡ slice_index_or ((mem_contents self.old).files table.now) file []) }
        ensures cause { InputCause (mem_contents self.old).faults
            (mem_contents self.new).faults result }
        ensures steady { InputSteady (mem_contents self.old).faults
            (mem_contents self.new).faults result }
        ensures call { FailsAsListed
            (IsErrOf result InputError.Failed) self.old.calls self.new.calls }
    {
        Self::begin(&mut self.calls, &mut self.faults)?;
        match files_of(self.tables.as_slice(), table) {
            Some(files) => {
                let content = &files.as_slice()[file as usize];
                Ok(Bytes::from_slice(self.alloc, content.as_slice())?)
            }
            None => unreachable!(),
        }
    }
}

fn sizes_of(alloc: Global, files: &[Bytes]) -> Result<Sizes, NoMemory>
    ensures { IfOk result (λ sizes. sizes ≡ map length files.now) }
{
    let mut sizes = Sizes::new(alloc);
    for file in files {
        sizes.push(file.len() as u64)?;
    }
    Ok(sizes)
}
