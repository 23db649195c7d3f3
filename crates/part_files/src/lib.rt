//! What the file of a part holds: its bytes, its name, and how a cell is read from its place without the
//! others. A source of bytes may tell them or, as a real file, tell nothing.
#![tactic(auto)]

mod cell_place;
mod encoding;
mod naming;
mod part_file;
mod part_header;
mod reading;
mod source;

pub use encoding::part_bytes;
pub use naming::{part_named, part_text};
pub use part_file::PartFile;
pub use reading::bytes_at;
pub use source::Source;
