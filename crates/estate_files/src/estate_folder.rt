use crate::folders::{make_folder, open_to_write, remove_rests};
use folder_files::{FileError, FileSystem, path_below};
use row_core::NoMemory;
use std::alloc::Global;
use std::fs::File;
use std::io;
use std::process::Process;

/// The folder `estate/` below a root: its paths, and the lock that one process at a time holds to write.
#[derive(Drop)]
pub struct EstateFolder<'a, R> {
    pub rt: (&'a R, Global),
    root: String,
    pub estate: String,
    lock: String,
    pub log: String,
    pub parts: String,
    pub out: String,
    process: u32,
    held: Option<File>,
    has_parts: bool,
    has_out: bool,
}

impl<'a, R: FileSystem> EstateFolder<'a, R> {
    /// Opens nothing.
    pub fn new(rt: &'a R, process: Process, alloc: Global, root: &str) -> Result<Self, NoMemory> {
        let estate = path_below(alloc, root, "estate")?;
        Ok(EstateFolder {
            rt: (rt, alloc),
            root: String::from_str(alloc, root)?,
            lock: path_below(alloc, estate.as_str(), "lock")?,
            log: path_below(alloc, estate.as_str(), "log")?,
            parts: path_below(alloc, estate.as_str(), "parts")?,
            out: path_below(alloc, estate.as_str(), "out")?,
            estate,
            process: std::process::id(process),
            held: None,
            has_parts: false,
            has_out: false,
        })
    }

    /// Takes the lock, unless it is held already. Where another process has it, the answer is an error at
    /// once, and nothing else is touched. It is held while this lives. Takes no memory.
    pub fn lock(&mut self) -> io::Result<()> {
        if self.held.is_none() {
            make_folder(&self.rt, self.estate.as_str(), self.root.as_str())?;
            let file = open_to_write(&self.rt, self.lock.as_str())?;
            file.try_lock()?;
            self.held = Some(file);
        }
        Ok(())
    }

    /// Takes the lock, and the first time makes the folder of parts and clears it.
    pub fn prepare_parts(&mut self) -> Result<(), FileError> {
        self.lock()?;
        if !self.has_parts {
            self.make_clear(self.parts.as_str())?;
            self.has_parts = true;
        }
        Ok(())
    }

    /// Takes the lock, and the first time makes the folder of commits and clears it.
    pub fn prepare_out(&mut self) -> Result<(), FileError> {
        self.lock()?;
        if !self.has_out {
            self.make_clear(self.out.as_str())?;
            self.has_out = true;
        }
        Ok(())
    }

    // Makes a folder here, and removes what other processes left aside in it.
    fn make_clear(&self, path: &str) -> Result<(), FileError> {
        make_folder(&self.rt, path, self.estate.as_str())?;
        remove_rests(&self.rt, path)
    }

    /// The path of a name in one of the folders.
    pub fn place(&self, folder: &str, name: &str) -> Result<String, NoMemory> {
        path_below(self.rt.1, folder, name)
    }

    /// Where this process writes what is to get that place by a rename.
    pub fn aside(&self, folder: &str, name: &str) -> Result<String, NoMemory> {
        format!(in self.rt.1; "{folder}/.{name}.{}.partial", self.process)
    }
}
