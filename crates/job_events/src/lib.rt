//! The events of a job on its log: what each event changes in the job's graph, and what the blocks
//! of a whole log come to.
#![tactic(auto)]

mod accepting;
mod applying;
mod log_laws;
mod log_state;
mod replay_error;
mod replayed_log;
mod replaying;
mod stepping;

use accepting::accepted_job;
pub use applying::apply;
pub use event_codec::{EventError, decode, encode};
pub use log_laws::started_jobs_fold;
pub use log_state::LogState;
pub use replay_error::ReplayError;
pub use replayed_log::ReplayedLog;
pub use replaying::{first_fault, replay};
use stepping::next_state;
