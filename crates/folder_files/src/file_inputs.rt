ghost use Rattle.std.specs.Prelude.{◌≡◌, ◌⊎◌, ◌≤◌, false, [], IfOk};
ghost use Rattle.estate.specs.Changes.{Rose};

use crate::entries::sorted_names;
use crate::file_error::FileError;
use crate::file_system::FileSystem;
use crate::naming::file_name;
use crate::paths::path_below;
use estate::{InputError, Inputs, Sizes};
use row_core::{Bytes, NoMemory};
use std::alloc::Global;
use std::marker::Model;
use std::{fs, io};

/// The inputs of a folder: `job.json`, and for each table the files of `tables/<table>/` whose names end
/// in `.csv`. They tell nothing of what they hold, since what a file gives is the system's word:
/// contracts see how often they have failed.
#[derive(Drop)]
pub struct FileInputs<'a, R> {
    rt: (&'a R, Global),
    root: String,
    // Each table's folder is listed once: a file that comes later changes no file's number.
    listings: Vec<Listing>,
    faults: u64,
}

// The files of a table, in the byte order of their names.
#[derive(Drop)]
struct Listing {
    table: Bytes,
    paths: Vec<String>,
}

impl<'a, R> Model for FileInputs<'a, R> {
    ghost use Rattle.std.specs.Prelude.{ℕ};

    ghost Value = { ℕ };

    ghost view = { λ inputs. inputs.faults };
}

impl<'a, R: FileSystem> FileInputs<'a, R> {
    /// The inputs of the root folder. Opens nothing.
    pub fn new(rt: &'a R, alloc: Global, root: &str) -> Result<Self, NoMemory>
        ensures { IfOk result (λ made. made ≡ 0) }
    {
        Ok(FileInputs {
            rt: (rt, alloc),
            root: String::from_str(alloc, root)?,
            listings: Vec::new(alloc),
            faults: 0,
        })
    }
}

// Counts a fault, unless the error is want of memory.
fn counted(faults: &mut u64, error: FileError) -> InputError
    ensures cause { result ≡ InputError.Failed → Rose faults.old faults.new }
    ensures steady { (result ≡ InputError.Failed) ⊎ (faults.new ≡ faults.old) }
    ensures later { faults.old ≤ faults.new }
{
    match error {
        FileError::NoMemory => InputError::NoMemory,
        FileError::Failed => {
            *faults = faults.saturating_add(1);
            InputError::Failed
        }
    }
}

impl<'a, R: FileSystem> Inputs for FileInputs<'a, R> {
    ghost contents = { λ faults.
        record { told = false; job = []; files = λ table. []; faults = faults } };

    fn job_text(&mut self) -> Result<Bytes, InputError> {
        match job(&self.rt, self.root.as_str()) {
            Ok(text) => Ok(text),
            Err(error) => Err(counted(&mut self.faults, error)),
        }
    }

    fn file_sizes(&mut self, table: &Bytes) -> Result<Sizes, InputError> {
        match sizes(&self.rt, self.root.as_str(), &mut self.listings, table) {
            Ok(sizes) => Ok(sizes),
            Err(error) => Err(counted(&mut self.faults, error)),
        }
    }

    fn read_file(&mut self, table: &Bytes, file: u32) -> Result<Bytes, InputError> {
        match read(
            &self.rt,
            self.root.as_str(),
            &mut self.listings,
            table,
            file,
        ) {
            Ok(bytes) => Ok(bytes),
            Err(error) => Err(counted(&mut self.faults, error)),
        }
    }
}

fn job<R: FileSystem>(rt: &R, root: &str) -> Result<Bytes, FileError> {
    let path = path_below(rt.alloc(), root, "job.json")?;
    file_size(rt, path.as_str())?;
    Ok(Bytes::from_vec(fs::read(rt, path.as_str())?))
}

// The sizes of a table's files, in bytes.
fn sizes<R: FileSystem>(
    rt: &R,
    root: &str,
    listings: &mut Vec<Listing>,
    table: &Bytes,
) -> Result<Sizes, FileError> {
    list(rt, root, listings, table)?;
    let mut sizes = Vec::new(rt.alloc());
    for path in listed_paths(listings.as_slice(), table).unwrap_or(&[]) {
        sizes.push(file_size(rt, path.as_str())?)?;
    }
    Ok(Sizes::from_vec(sizes))
}

// The size of a file. Anything else at its path is an error; a link to a file serves.
fn file_size<R: FileSystem>(rt: &R, path: &str) -> io::Result<u64> {
    let found = fs::metadata(rt, path)?;
    if found.is_file() {
        Ok(found.len())
    } else {
        Err(io::Error::from(io::ErrorKind::InvalidInput))
    }
}

// Reads a file of a table.
fn read<R: FileSystem>(
    rt: &R,
    root: &str,
    listings: &mut Vec<Listing>,
    table: &Bytes,
    file: u32,
) -> Result<Bytes, FileError> {
    list(rt, root, listings, table)?;
    let paths = listed_paths(listings.as_slice(), table);
    let Some(path) = paths.and_then(|paths| paths.get(file as usize)) else {
        return Err(FileError::Failed);
    };
    file_size(rt, path.as_str())?;
    Ok(Bytes::from_vec(fs::read(rt, path.as_str())?))
}

// Lists a table's folder, unless it was listed before.
fn list<R: FileSystem>(
    rt: &R,
    root: &str,
    listings: &mut Vec<Listing>,
    table: &Bytes,
) -> Result<(), FileError> {
    if listed_paths(listings.as_slice(), table).is_some() {
        return Ok(());
    }
    let paths = csv_paths(rt, root, table)?;
    let table = Bytes::from_slice(rt.alloc(), table.as_slice())?;
    Ok(listings.push(Listing { table, paths })?)
}

// The paths of a table that was listed.
fn listed_paths<'a>(listings: &'a [Listing], table: &Bytes) -> Option<&'a [String]> {
    for listing in listings {
        if listing.table.equals(table) {
            return Some(listing.paths.as_slice());
        }
    }
    None
}

// The paths of a table's files, in the byte order of their names. A missing folder is an error, and a
// name that is no text is passed over like any other that is no file's of a table.
fn csv_paths<R: FileSystem>(rt: &R, root: &str, table: &Bytes) -> Result<Vec<String>, FileError> {
    let alloc = rt.alloc();
    let tables = path_below(alloc, root, "tables")?;
    let folder = path_below(alloc, tables.as_str(), file_name(table)?)?;
    let mut paths = Vec::new(alloc);
    for name in sorted_names(rt, folder.as_str())? {
        if name.ends_with(".csv") {
            paths.push(path_below(alloc, folder.as_str(), name.as_str())?)?;
        }
    }
    Ok(paths)
}
