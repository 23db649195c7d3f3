use std::fs::{File, Files};

/// The part of a runtime that opens the system's own files, which can be locked and read at a place.
pub trait FileSystem: Files<File = File> + AllocGlobal + Clone + Drop {}

impl<R: Files<File = File> + AllocGlobal + Clone + Drop> FileSystem for R {}
