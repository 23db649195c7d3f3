//! What lost parts cost: which subtasks run again, and when the troubles of a job spend its budget
//! of restarts.
#![tactic(auto)]

mod budget;
mod failover;

pub use budget::{Budget, trouble};
pub use failover::closure;
