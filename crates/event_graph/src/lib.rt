//! The state that a job's events lead to, kept with the indexes by which each event costs as much
//! as it touches: the vertices that are made, the numbers of their subtasks, who reads from whom by
//! numbers, and whose winners are missing.
#![tactic(auto)]

mod asking;
mod event_graph;
mod graph_error;
mod numbers;
mod producing;
mod reopening;
mod verdict;
mod winning;

use asking::{is_fed, parts_read, reads_parts};
pub use event_graph::EventGraph;
pub use graph_error::GraphError;
pub use numbers::Numbers;
use producing::producers_of;
use reopening::reopen_all;
pub use verdict::Verdict;
use winning::{are_winners, winners_of};
