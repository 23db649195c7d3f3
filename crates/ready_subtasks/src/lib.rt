//! Which subtasks are ready for an attempt: a mark for each, so that the first of them is found in
//! few steps. The laws say which marks an event touches.
#![tactic(auto)]

mod ready_laws;
mod ready_subs;

pub use ready_laws::marked_are_ready;
pub use ready_subs::ReadySubs;
