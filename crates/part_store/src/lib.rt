//! The parts of a shelf: what an attempt wrote is put, and read again as rows, cell by cell.
#![tactic(auto)]

mod part;
mod putting;
mod reading;
mod sizing;
mod store_error;

pub use part::Part;
pub use putting::{put, put_part_stands};
pub use reading::{cells, encoded_cells};
pub use sizing::sizes;
pub use store_error::StoreError;
