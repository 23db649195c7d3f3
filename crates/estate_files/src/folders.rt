use folder_files::{FileError, FileSystem, names_in, path_below};
use std::fs::{File, OpenFile, OpenOptions};
use std::{fs, io};

/// Makes a folder, unless it is there, and makes its place in the folder above last: a process that made
/// it may have died before it did so.
pub fn make_folder<R: FileSystem>(rt: &R, path: &str, above: &str) -> io::Result<()> {
    match fs::create_dir(rt, path) {
        Ok(()) => {}
        Err(error) if error.kind() == io::ErrorKind::AlreadyExists => is_folder(rt, path)?,
        Err(error) => return Err(error),
    }
    sync_folder(rt, above)
}

// An error where no folder stands at the path. A link to a folder serves.
fn is_folder<R: FileSystem>(rt: &R, path: &str) -> io::Result<()> {
    if fs::metadata(rt, path)?.is_dir() {
        Ok(())
    } else {
        Err(io::Error::from(io::ErrorKind::NotADirectory))
    }
}

/// Makes the entries of a folder last.
pub fn sync_folder<R: FileSystem>(rt: &R, path: &str) -> io::Result<()> {
    File::open(rt, path)?.sync_all()
}

/// Whether a file stands at the path: false where nothing does, and an error where anything else does, as
/// a folder or a link.
pub fn has_file<R: FileSystem>(rt: &R, path: &str) -> io::Result<bool> {
    match fs::symlink_metadata(rt, path) {
        Ok(found) if found.is_file() => Ok(true),
        Ok(_) => Err(io::Error::from(io::ErrorKind::InvalidInput)),
        Err(error) if error.kind() == io::ErrorKind::NotFound => Ok(false),
        Err(error) => Err(error),
    }
}

/// Opens a file to read and write, which is made where there is none. Anything else at its path is an
/// error.
pub fn open_to_write<R: FileSystem>(rt: &R, path: &str) -> io::Result<File> {
    has_file(rt, path)?;
    OpenOptions::new()
        .read(true)
        .write(true)
        .create(true)
        .open(rt, path)
}

/// Whether a folder stands at the path: false where nothing does, and an error where anything else does.
pub fn has_folder<R: FileSystem>(rt: &R, path: &str) -> io::Result<bool> {
    match fs::symlink_metadata(rt, path) {
        Ok(found) if found.is_dir() => Ok(true),
        Ok(_) => Err(io::Error::from(io::ErrorKind::InvalidInput)),
        Err(error) if error.kind() == io::ErrorKind::NotFound => Ok(false),
        Err(error) => Err(error),
    }
}

/// Removes from a folder what other processes left aside, which is to be called under the lock alone.
pub fn remove_rests<R: FileSystem>(rt: &R, folder: &str) -> Result<(), FileError> {
    for name in names_in(rt, folder)? {
        if name.starts_with('.') && name.ends_with(".partial") {
            let path = path_below(rt.alloc(), folder, name.as_str())?;
            remove_any(rt, path.as_str())?;
        }
    }
    Ok(())
}

/// Removes a file, or a folder with all that it holds, if there is one.
pub fn remove_any<R: FileSystem>(rt: &R, path: &str) -> io::Result<()> {
    match fs::remove_file(rt, path) {
        Ok(()) => Ok(()),
        Err(error) if error.kind() == io::ErrorKind::NotFound => Ok(()),
        Err(_) => fs::remove_dir_all(rt, path),
    }
}
