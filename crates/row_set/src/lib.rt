//! The set of the rows that a pipeline gives: each row once, found by a hash of its bytes.
#![tactic(auto)]

mod byte_set;
mod row_set;

pub use byte_set::{ByteSet, emptied};
pub use row_set::RowSet;
