//! Which side of a join is read whole by each of its subtasks: a small one that the join's kind
//! lets be repeated. Each row of the other side then meets all of its matches where it stands.
#![tactic(auto)]

mod choosing;

pub use choosing::{choose_side, repeats};
