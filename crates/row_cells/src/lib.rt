//! The cells of an output, which take the rows of a task: each row is written straight into the
//! bytes of its cell.
#![tactic(auto)]

mod output_cells;
mod placing;

pub use output_cells::OutputCells;
