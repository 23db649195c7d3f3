//! The operators that go row by row, as the steps of one pipeline: each row goes through all steps
//! to a collector before the next, so that no rows stand between.
#![tactic(auto)]

mod batches;
mod piece;
mod shorter;
mod shown;
mod steps;
mod values;

pub use batches::push_rows;
pub use shown::value_in;
pub use steps::push_row;
