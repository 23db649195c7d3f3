ghost use Rattle.std.specs.Prelude.{◌≡◌, ◌⊎◌, ◌≤◌, IfOk};
ghost use Rattle.estate.specs.Changes.{Rose};
ghost use Rattle.estate.specs.Holding.{no_counts};
ghost use Rattle.estate_files.specs.Worlds.{counted_world};

use crate::estate_folder::EstateFolder;
use crate::file_log::FileLog;
use crate::file_shelf::FileShelf;
use crate::file_sink::{commit, committed_job};
use estate::{Edges, Estate, EstateError, Names, PartName};
use folder_files::{FileError, FileSystem};
use row_core::{Bytes, NoMemory};
use std::alloc::Global;
use std::marker::Model;
use std::process::Process;

/// The estate of a folder: the log is the file `estate/log`, each part a file in `estate/parts/`, each
/// commit a folder in `estate/out/`. The first call that may write takes a lock on `estate/lock`, which
/// is held while the estate lives: where another process has it, the call fails. Nothing is kept in
/// memory but what a call needs. It tells nothing of what it holds: contracts see its counts.
#[derive(Drop)]
pub struct FileEstate<'a, R> {
    folder: EstateFolder<'a, R>,
    log: FileLog,
    shelf: FileShelf,
    log_faults: u64,
    shelf_faults: u64,
    sink_faults: u64,
    losses: u64,
}

impl<'a, R> Model for FileEstate<'a, R> {
    ghost use Rattle.estate.specs.Holding.{Counts};

    ghost Value = { Counts };

    ghost view = { λ estate. record {
      log_faults = estate.log_faults;
      shelf_faults = estate.shelf_faults;
      sink_faults = estate.sink_faults;
      losses = estate.losses;
    } };
}

impl<'a, R: FileSystem> FileEstate<'a, R> {
    /// The estate of the folder `estate/` below the root. Opens nothing.
    pub fn new(rt: &'a R, process: Process, alloc: Global, root: &str) -> Result<Self, NoMemory>
        ensures { IfOk result (λ made. made ≡ no_counts) }
    {
        Ok(FileEstate {
            folder: EstateFolder::new(rt, process, alloc, root)?,
            log: FileLog::new(),
            shelf: FileShelf::new(),
            log_faults: 0,
            shelf_faults: 0,
            sink_faults: 0,
            losses: 0,
        })
    }
}

// Counts a fault of a part of the estate.
fn failed(faults: &mut u64) -> EstateError
    ensures failed { result ≡ EstateError.Failed }
    ensures cause { Rose faults.old faults.new }
    ensures later { faults.old ≤ faults.new }
{
    *faults = faults.saturating_add(1);
    EstateError::Failed
}

// Counts a fault, unless the error is want of memory.
fn counted(faults: &mut u64, error: FileError) -> EstateError
    ensures cause { result ≡ EstateError.Failed → Rose faults.old faults.new }
    ensures steady { (result ≡ EstateError.Failed) ⊎ (faults.new ≡ faults.old) }
    ensures later { faults.old ≤ faults.new }
{
    match error {
        FileError::Failed => failed(faults),
        FileError::NoMemory => EstateError::NoMemory,
    }
}

impl<'a, R: FileSystem> Estate for FileEstate<'a, R> {
    ghost use Rattle.estate_files.specs.Worlds.{counted_lawful};

    ghost world = { counted_world };

    fn log_len(&mut self) -> Result<u64, EstateError> {
        match self.log.len(&self.folder) {
            Ok(len) => Ok(len),
            Err(_) => Err(failed(&mut self.log_faults)),
        }
    }

    fn log_read(&mut self, at: u64, len: u64) -> Result<Bytes, EstateError> {
        match self.log.read(&self.folder, at, len) {
            Ok(bytes) => Ok(bytes),
            Err(error) => Err(counted(&mut self.log_faults, error)),
        }
    }

    fn log_write(&mut self, at: u64, bytes: &Bytes) -> Result<(), EstateError> {
        match self.log.write(&mut self.folder, at, bytes) {
            Ok(()) => Ok(()),
            Err(_) => Err(failed(&mut self.log_faults)),
        }
    }

    fn log_sync(&mut self) -> Result<(), EstateError> {
        match self.log.sync(&mut self.folder) {
            Ok(()) => Ok(()),
            Err(_) => Err(failed(&mut self.log_faults)),
        }
    }

    fn shelf_put(&mut self, name: PartName, edges: &Edges) -> Result<(), EstateError> {
        match self.shelf.put(&mut self.folder, name, edges) {
            Ok(()) => Ok(()),
            Err(error) => Err(counted(&mut self.shelf_faults, error)),
        }
    }

    fn shelf_cell(
        &mut self,
        name: PartName,
        edge: u32,
        cell: u32,
    ) -> Result<Option<Bytes>, EstateError> {
        let losses = &mut self.losses;
        match self.shelf.cell(&self.folder, losses, name, edge, cell) {
            Ok(found) => Ok(found),
            Err(error) => Err(counted(&mut self.shelf_faults, error)),
        }
    }

    fn shelf_names(&mut self) -> Result<Names, EstateError> {
        match self.shelf.names(&self.folder, &mut self.losses) {
            Ok(names) => Ok(names),
            Err(error) => Err(counted(&mut self.shelf_faults, error)),
        }
    }

    fn sink_commit(&mut self, id: &Bytes, job: &Bytes, text: &Bytes) -> Result<(), EstateError> {
        match commit(&mut self.folder, id, job, text) {
            Ok(()) => Ok(()),
            Err(error) => Err(counted(&mut self.sink_faults, error)),
        }
    }

    fn sink_committed(&mut self, id: &Bytes) -> Result<Option<Bytes>, EstateError> {
        match committed_job(&self.folder, id) {
            Ok(job) => Ok(job),
            Err(error) => Err(counted(&mut self.sink_faults, error)),
        }
    }

    ghost lawful = { counted_lawful };
}
