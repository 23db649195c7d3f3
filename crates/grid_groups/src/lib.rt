//! Neighbouring producers or columns of a vertex's inputs are shared by subtasks, by their sizes in
//! bytes: the part that is common to all decisions. What the subtasks read is a cover.
#![tactic(auto)]

mod sharing;
mod sizes;

pub use sharing::{choose_groups, columns_in, push_wholes, share_columns, share_producers};
pub use sizes::{cell_size, column_size, column_sizes, producer_sizes};
