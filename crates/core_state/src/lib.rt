//! What the master keeps between two steps, and the steps that only move it on: a legal event that
//! joins, a block of events that is flushed.
#![tactic(auto)]

mod adding;
mod blocks;
mod deployed;
mod flushing;
mod master_state;
mod run_time;

pub use deployed::Deployed;
pub use master_state::MasterState;
pub use run_time::RunTime;
