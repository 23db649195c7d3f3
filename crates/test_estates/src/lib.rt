//! Estates in memory, made in one call, for the tests of other crates.
#![tactic(auto)]

mod memory;

pub use memory::{failing_at, numbers, whole_log};
