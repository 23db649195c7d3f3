//! The board on which the master offers attempts to its workers: one lock, whose value keeps its
//! history. docs/SEMANTICS.md has the rules of its calls.
#![tactic(auto)]

mod board;
mod board_state;
mod claim;
mod desk;
mod pass;
mod passes;
mod posted;
mod posting;
mod race;
mod report;
mod reports;

pub use board::Board;
pub use board_log::{Entry, History, Kind};
pub use board_state::BoardState;
pub use claim::Claim;
pub use desk::Desk;
pub use pass::Pass;
pub use passes::Passes;
pub use race::Race;
pub use report::Report;
pub use reports::Reports;
