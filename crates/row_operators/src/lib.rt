//! What each operator gives on rows that are kept as bytes. No row is decoded.
#![tactic(auto)]

mod applying;
mod join_operator;
mod row_buffer;

pub use applying::apply;
pub use join_operator::join;
pub use row_buffer::RowBuffer;
