//! Plans in short, for the tests of other crates.
#![tactic(auto)]

mod plans;

pub use plans::{Short, ShortNode, accepted, plan};
