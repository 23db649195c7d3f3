//! The names of attempts: which a subtask was given, and whose attempts still run.
#![tactic(auto)]

mod attempt_names;
mod tries;

pub use attempt_names::AttemptNames;
use tries::Tries;
