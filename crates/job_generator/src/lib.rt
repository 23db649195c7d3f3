//! A job of any size for trials: its text, and tables whose rows follow from their numbers.
#![tactic(auto)]

mod generating;
mod job;
mod nodes;
mod tables;

pub use generating::generate;
