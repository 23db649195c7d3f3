//! The lines that show events, one each: `made 0 nodes=0,1,2`. docs/FORMATS.md states them.
#![tactic(auto)]

mod lines;
mod texts;
mod totals;

pub use lines::event_lines;
