//! Commits a job's text to the sink once: the sink is asked first, and what stands under the id
//! decides.
#![tactic(auto)]

mod commit;
mod commit_error;
mod committed;

pub use commit::commit_once;
pub use commit_error::CommitError;
pub use committed::Committed;
