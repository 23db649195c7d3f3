//! What a worker does: it claims a task, enters the gate, runs it, finishes its race and reports,
//! until the board is stopped. And how workers run beside the master.
#![tactic(auto)]

mod attempting;
mod beside;
mod crew;
mod racing;
mod worker;
mod working;

pub use beside::side_by_side;
pub use crew::{crew_of, passes_of};
pub use worker::Worker;
pub use working::work;
