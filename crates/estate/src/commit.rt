ghost use Rattle.std.specs.Prelude.{◌≡◌, IfOk};
ghost use Rattle.estate.specs.Holding.{commit_of};

use row_core::{Bytes, NoMemory};
use std::alloc::Global;

/// What the sink was given under an id: the job's text, and the text that it committed.
#[derive(Debug, Drop)]
pub struct Commit {
    pub id: Bytes,
    pub job: Bytes,
    pub text: Bytes,
}

impl Commit {
    pub fn from_slices(
        alloc: Global,
        id: &[u8],
        job: &[u8],
        text: &[u8],
    ) -> Result<Commit, NoMemory>
        ensures { IfOk result (λ made. made ≡ commit_of id.now job.now text.now) }
    {
        Ok(Commit {
            id: Bytes::from_slice(alloc, id)?,
            job: Bytes::from_slice(alloc, job)?,
            text: Bytes::from_slice(alloc, text)?,
        })
    }

    pub fn copy(&self, alloc: Global) -> Result<Commit, NoMemory>
        ensures { IfOk result (λ made. made ≡ self.now) }
    {
        Commit::from_slices(
            alloc,
            self.id.as_slice(),
            self.job.as_slice(),
            self.text.as_slice(),
        )
    }
}
