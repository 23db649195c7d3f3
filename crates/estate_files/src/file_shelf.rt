ghost use Rattle.std.specs.Prelude.{◌≡◌, ◌≤◌, None, IfOk};
ghost use Rattle.estate.specs.Changes.{Rose};

use crate::estate_folder::EstateFolder;
use crate::folders::remove_any;
use crate::open_part::OpenPart;
use estate::{Edges, Names, PartName};
use folder_files::{FileError, FileSystem, names_in};
use part_files::{part_bytes, part_named, part_text};
use row_core::Bytes;
use std::fs::{File, Metadata, OpenFile};
use std::io::Write;
use std::{fs, io};

/// The shelf as a folder with one file a part. Of one part, the last that a cell was read of, the file
/// and the places of its cells are kept; of the rest, nothing.
#[derive(Drop)]
pub struct FileShelf {
    open: Option<OpenPart>,
    // How many parts were there as far as these calls have seen.
    seen: u64,
}

impl FileShelf {
    pub fn new() -> Self {
        FileShelf {
            open: None,
            seen: 0,
        }
    }

    /// Puts a part: written aside, synced, and given its place by one rename. A name that stands already
    /// is refused.
    pub fn put<R: FileSystem>(
        &mut self,
        folder: &mut EstateFolder<'_, R>,
        name: PartName,
        edges: &Edges,
    ) -> Result<(), FileError> {
        let bytes = part_bytes(folder.rt.1, edges)?;
        let text = part_text(folder.rt.1, name)?;
        let place = folder.place(folder.parts.as_str(), text.as_str())?;
        let aside = folder.aside(folder.parts.as_str(), text.as_str())?;
        folder.prepare_parts()?;
        if write_part(&folder.rt, aside.as_str(), place.as_str(), &bytes).is_err() {
            let _ = remove_any(&folder.rt, aside.as_str());
            return Err(FileError::Failed);
        }
        self.seen = self.seen.saturating_add(1);
        Ok(())
    }

    /// A cell of a part, or `None` where the part is not there, which counts a loss.
    pub fn cell<R: FileSystem>(
        &mut self,
        folder: &EstateFolder<'_, R>,
        losses: &mut u64,
        name: PartName,
        edge: u32,
        cell: u32,
    ) -> Result<Option<Bytes>, FileError>
        ensures gone { IfOk result (λ found. found ≡ None → Rose losses.old losses.new) }
        ensures later { losses.old ≤ losses.new }
    {
        let text = part_text(folder.rt.1, name)?;
        let path = folder.place(folder.parts.as_str(), text.as_str())?;
        match found_part(&folder.rt, path.as_str())? {
            Some(found) => Ok(Some(self.cell_of(folder, name, path.as_str(), &found, edge, cell)?)),
            None => {
                self.open = None;
                *losses = losses.saturating_add(1);
                Ok(None)
            }
        }
    }

    // A cell of a part whose file was found.
    fn cell_of<R: FileSystem>(
        &mut self,
        folder: &EstateFolder<'_, R>,
        name: PartName,
        path: &str,
        found: &Metadata,
        edge: u32,
        cell: u32,
    ) -> Result<Bytes, FileError> {
        let alloc = folder.rt.1;
        match &self.open {
            Some(part) if part.is(name, found) => part.cell(alloc, edge, cell),
            _ => {
                self.open = None;
                let file = File::open(&folder.rt, path)?;
                let part = OpenPart::open(alloc, name, file)?;
                let bytes = part.cell(alloc, edge, cell)?;
                self.open = Some(part);
                Ok(bytes)
            }
        }
    }

    /// The names that are there, in ascending order. Where there are fewer than there were, a loss counts.
    pub fn names<R: FileSystem>(
        &mut self,
        folder: &EstateFolder<'_, R>,
        losses: &mut u64,
    ) -> Result<Names, FileError>
        ensures later { losses.old ≤ losses.new }
    {
        let names = part_names(folder)?;
        let seen = names.as_slice().len() as u64;
        if seen < self.seen {
            *losses = losses.saturating_add(1);
        }
        self.seen = seen;
        Ok(names)
    }
}

// What stands at a part's path: nothing, or a file. Anything else is an error.
fn found_part<R: FileSystem>(rt: &R, path: &str) -> io::Result<Option<Metadata>> {
    match fs::symlink_metadata(rt, path) {
        Ok(found) if found.is_file() => Ok(Some(found)),
        Ok(_) => Err(io::Error::from(io::ErrorKind::InvalidInput)),
        Err(error) if error.kind() == io::ErrorKind::NotFound => Ok(None),
        Err(error) => Err(error),
    }
}

fn write_part<R: FileSystem>(rt: &R, aside: &str, place: &str, bytes: &Bytes) -> io::Result<()> {
    if found_part(rt, place)?.is_some() {
        return Err(io::Error::from(io::ErrorKind::AlreadyExists));
    }
    let mut file = File::create(rt, aside)?;
    file.write_all(bytes.as_slice())?;
    file.sync_data()?;
    fs::rename(rt, aside, place)
}

fn part_names<R: FileSystem>(folder: &EstateFolder<'_, R>) -> Result<Names, FileError> {
    let alloc = folder.rt.1;
    let mut names = Vec::new(alloc);
    for text in names_in(&folder.rt, folder.parts.as_str())? {
        if let Some(name) = part_named(alloc, text.as_str())? {
            names.push(name)?;
        }
    }
    names.sort()?;
    Ok(Names::from_vec(names))
}
