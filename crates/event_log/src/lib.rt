//! The log of a job's events: blocks behind gates, each of which counts whole or not at all,
//! whatever a crash leaves. docs/FORMATS.md states the format.
#![tactic(auto)]

mod blocks;
mod log;
mod log_error;
mod opening;
mod parse;
mod write;

pub use blocks::Blocks;
pub use log::{LOG_LIMIT, Log};
pub use log_error::LogError;
pub use opening::{start, view};
