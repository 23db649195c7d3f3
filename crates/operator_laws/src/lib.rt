//! The laws of a plan's operators, each once: they go by the bags of their inputs, row by row or by
//! keys, and keep values within their limits. A law is the contract of a function with an empty
//! body; a proof of another crate cites it by its name in proofs/Laws.
#![tactic(auto)]

mod bags;
mod keys;
mod nodes;
mod rows;
mod texts;

pub use bags::operators_go_by_bags;
pub use keys::{distinct_goes_by_parts, groups_go_by_keys, matching_rows_share_keys};
pub use nodes::{nodes_apply, nodes_go_by_bags, sections_go_by_bags};
pub use rows::{left_rows_go_alone, right_rows_go_alone, rows_go_alone};
pub use texts::texts_are_kept;
