//! Files of a folder: names that stand for one, names in their order, why a call on files gave nothing;
//! and the inputs of a job as such files.
#![tactic(auto)]

mod entries;
mod file_error;
mod file_inputs;
mod file_system;
mod naming;
mod paths;

pub use entries::{names_in, sorted_names};
pub use file_error::FileError;
pub use file_inputs::FileInputs;
pub use file_system::FileSystem;
pub use naming::file_name;
pub use paths::path_below;
