//! How the master comes to an end: what falls with each step that adds an event.
#![tactic(auto)]

mod progress_laws;

pub use progress_laws::{steps_advance, troubles_are_bounded};
