use crate::LogState;
use exec_graph::Events;

/// Events that were read, and what they come to.
#[derive(Debug, Drop)]
pub struct ReplayedLog {
    pub events: Events,
    pub state: LogState,
}
