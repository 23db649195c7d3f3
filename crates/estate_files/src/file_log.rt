use crate::estate_folder::EstateFolder;
use crate::folders::{has_file, open_to_write, sync_folder};
use folder_files::{FileError, FileSystem};
use part_files::bytes_at;
use row_core::Bytes;
use std::fs::File;
use std::io;
use std::os::unix::fs::FileExt;

/// The log as one file, which is opened once and kept open.
#[derive(Drop)]
pub struct FileLog {
    file: Option<File>,
    is_writable: bool,
    // A sync has failed: the system may have given up what it was to write, and would not say so again.
    is_lost: bool,
}

impl FileLog {
    pub fn new() -> Self {
        FileLog {
            file: None,
            is_writable: false,
            is_lost: false,
        }
    }

    /// The length; none where there is no file yet.
    pub fn len<R: FileSystem>(&mut self, folder: &EstateFolder<'_, R>) -> io::Result<u64> {
        match self.opened(folder)? {
            Some(file) => Ok(file.metadata()?.len()),
            None => Ok(0),
        }
    }

    /// These bytes. Past the end there are none to read.
    pub fn read<R: FileSystem>(
        &mut self,
        folder: &EstateFolder<'_, R>,
        at: u64,
        len: u64,
    ) -> Result<Bytes, FileError> {
        let alloc = folder.rt.1;
        match self.opened(folder)? {
            Some(file) => Ok(bytes_at(alloc, file, at, len)?),
            None if at == 0 && len == 0 => Ok(Bytes::new(alloc)),
            None => Err(FileError::Failed),
        }
    }

    /// Writes over what is there, and past the end, from a place that is within the log.
    pub fn write<R: FileSystem>(
        &mut self,
        folder: &mut EstateFolder<'_, R>,
        at: u64,
        bytes: &Bytes,
    ) -> io::Result<()> {
        folder.lock()?;
        let file = self.writable(folder)?;
        if at > file.metadata()?.len() {
            return Err(io::Error::from(io::ErrorKind::InvalidInput));
        }
        file.write_all_at(bytes.as_slice(), at)
    }

    /// Makes what was written, and the length, last. Once this has failed, each later write and sync
    /// fails too.
    pub fn sync<R: FileSystem>(&mut self, folder: &mut EstateFolder<'_, R>) -> io::Result<()> {
        folder.lock()?;
        let synced = self.writable(folder)?.sync_data();
        self.is_lost = synced.is_err();
        synced
    }

    // The file as it is open, or opened to read, if it is there.
    fn opened<R: FileSystem>(&mut self, folder: &EstateFolder<'_, R>) -> io::Result<Option<&File>> {
        if self.file.is_none() && has_file(&folder.rt, folder.log.as_str())? {
            self.file = Some(File::open(&folder.rt, folder.log.as_str())?);
        }
        Ok(self.file.as_ref())
    }

    // The file as it is open to read and write. One that is made here has its place made last.
    fn writable<R: FileSystem>(&mut self, folder: &EstateFolder<'_, R>) -> io::Result<&File> {
        if !self.is_writable {
            self.file = Some(open_log(folder)?);
            self.is_writable = true;
        }
        match &self.file {
            Some(file) if !self.is_lost => Ok(file),
            _ => Err(io::Error::from(io::ErrorKind::BrokenPipe)),
        }
    }
}

fn open_log<R: FileSystem>(folder: &EstateFolder<'_, R>) -> io::Result<File> {
    let file = open_to_write(&folder.rt, folder.log.as_str())?;
    sync_folder(&folder.rt, folder.estate.as_str())?;
    Ok(file)
}
