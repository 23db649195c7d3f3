use estate::PartName;
use folder_files::FileError;
use part_files::PartFile;
use row_core::Bytes;
use std::alloc::Global;
use std::fs::{File, Metadata};
use std::os::unix::fs::MetadataExt;

/// The file of a part that is open.
#[derive(Drop)]
pub struct OpenPart {
    name: PartName,
    found: Metadata,
    part: PartFile<File>,
}

impl OpenPart {
    /// Reads where its cells stand.
    pub fn open(alloc: Global, name: PartName, file: File) -> Result<Self, FileError> {
        let found = file.metadata()?;
        let part = PartFile::open(alloc, file)?;
        Ok(OpenPart { name, found, part })
    }

    /// Whether this is the part of that name, and the file that was found is still the one that is open.
    pub fn is(&self, name: PartName, found: &Metadata) -> bool {
        self.name == name && is_same_file(&self.found, found)
    }

    /// The bytes of a cell; none where the part has no such edge or cell.
    pub fn cell(&self, alloc: Global, edge: u32, cell: u32) -> Result<Bytes, FileError> {
        self.part.cell(alloc, edge, cell)
    }
}

// The same file of the same device, not written in between.
fn is_same_file(a: &Metadata, b: &Metadata) -> bool {
    a.dev() == b.dev()
        && a.ino() == b.ino()
        && a.size() == b.size()
        && a.mtime() == b.mtime()
        && a.mtime_nsec() == b.mtime_nsec()
}
