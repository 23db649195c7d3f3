//! The execution graph of a job: the state that its events lead to, the attempts of its subtasks,
//! and which subtasks are ready for one.
#![tactic(auto)]

mod graph;
mod refreshing;
mod touching;

pub use event_graph::{GraphError, Verdict};
pub use graph::Graph;
pub use graph_model::{
    Cause, Event, Events, FileSizes, MadeVertex, Sub, Subs, SubtaskState, SubtaskStates, Win,
};
use refreshing::refresh;
use touching::{touched_by, touched_by_all};
