//! The law of vertices over a plan: for a vertex of a plan without a fault and a cover of its shape,
//! the sum over the subtasks of what the vertex gives on what each reads is what it gives on the
//! whole, which is the bag of its last node; and it goes by the bags of what is read.
#![tactic(auto)]

mod bags;
mod sums;

pub use bags::{vertex_rows_go_by_bags, vertices_give_bags};
pub use sums::vertices_are_sums;
