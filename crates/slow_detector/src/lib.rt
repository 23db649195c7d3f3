//! Which running subtasks of a vertex are slow: they have run much longer than the finished ones
//! took, and get further attempts.
#![tactic(auto)]

mod detecting;
mod run;
mod runs;
mod subtasks;
mod times;

pub use detecting::slow;
pub use row_core::NoMemory;
pub use run::Run;
pub use runs::Runs;
pub use subtasks::Subtasks;
pub use times::Times;
