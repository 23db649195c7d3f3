//! What is called on the board, in order: each call and what it answered, what it leaves to be
//! claimed and told, and room for all that may still be called without taking memory.
#![tactic(auto)]

mod entry;
mod found;
mod history;
mod kind;
mod log;
mod logging;
mod offer;
mod searching;

pub use entry::Entry;
pub use found::Found;
pub use history::History;
pub use kind::Kind;
pub use log::Log;
pub use offer::Offer;
