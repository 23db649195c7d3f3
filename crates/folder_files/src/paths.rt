use row_core::NoMemory;
use std::alloc::Global;

/// The path of a name in a folder.
pub fn path_below(alloc: Global, folder: &str, name: &str) -> Result<String, NoMemory> {
    format!(in alloc; "{folder}/{name}")
}
