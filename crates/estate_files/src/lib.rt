//! The outside of a job as the real files of a folder: its log, shelf and sink, its inputs, standard
//! output and the system's clock. What a file gives is the system's word, so nothing here tells content.
#![tactic(auto)]

mod estate_folder;
mod file_estate;
mod file_log;
mod file_shelf;
mod file_sink;
mod folders;
mod open_part;
mod real_clock;
mod std_printer;

pub use file_estate::FileEstate;
pub use folder_files::{FileInputs, FileSystem};
pub use real_clock::RealClock;
pub use std_printer::StdPrinter;
