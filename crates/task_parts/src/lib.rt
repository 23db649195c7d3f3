//! What a task may give of the rows that its chain gives: the sums of its cells, and which rows
//! stand in which cell. Who makes parts and who composes them both stand on this relation.
#![tactic(auto)]

mod bags;
mod keys;

pub use bags::tasks_go_by_bags;
pub use keys::keys_share_cells;
