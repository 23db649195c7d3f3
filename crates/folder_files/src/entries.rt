use crate::file_error::FileError;
use crate::file_system::FileSystem;
use std::alloc::Global;
use std::fs::DirEntry;
use std::{fs, io};

/// The names in a folder that are text, in byte order; none where there is no folder. Other names are
/// passed over.
pub fn names_in<R: FileSystem>(rt: &R, folder: &str) -> Result<Vec<String>, FileError> {
    match sorted_names(rt, folder) {
        Ok(names) => Ok(names),
        Err(error) if error.kind() == io::ErrorKind::NotFound => Ok(Vec::new(rt.alloc())),
        Err(error) => Err(FileError::from(error)),
    }
}

/// The same of a folder that has to be there.
pub fn sorted_names<R: FileSystem>(rt: &R, folder: &str) -> io::Result<Vec<String>> {
    let mut names = Vec::new(rt.alloc());
    for entry in fs::read_dir(rt, folder)? {
        if let Some(name) = text_name(rt.alloc(), entry)? {
            names.push(name)?;
        }
    }
    names.sort()?;
    Ok(names)
}

// The name of an entry, unless it is no text.
fn text_name<R: FileSystem>(
    alloc: Global,
    entry: io::Result<DirEntry<R, Global>>,
) -> io::Result<Option<String>> {
    match entry {
        Ok(entry) => Ok(Some(String::from_str(alloc, entry.file_name())?)),
        Err(error) if error.kind() == io::ErrorKind::InvalidFilename => Ok(None),
        Err(error) => Err(error),
    }
}
