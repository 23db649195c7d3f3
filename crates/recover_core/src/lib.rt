//! The parts of recovery: what a job's log and sink say, whose they are, what is left of the job, and
//! the one block that opens its next epoch.
#![tactic(auto)]

mod agreeing;
mod asking;
mod differing;
mod flushing;
mod gone;
mod opening;
mod phase;
mod reading;
mod recover_error;
mod sizing;
mod standing;
mod started_job;
mod starting;
mod unfinished;

pub use agreeing::phase_of;
pub use asking::is_committed;
use differing::{first_change, first_difference};
pub use flushing::flush_behind;
pub use gone::gone_winners;
pub use opening::{first_epoch, next_epoch};
pub use phase::Phase;
pub use reading::read_log;
pub use recover_error::RecoverError;
use sizing::reset_len;
pub use standing::Standing;
pub use started_job::StartedJob;
pub use starting::own_graph;
pub use unfinished::first_unfinished;
