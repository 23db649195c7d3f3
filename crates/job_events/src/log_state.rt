use exec_graph::Graph;

/// What the events of a log come to.
#[derive(Debug, Drop)]
pub enum LogState {
    /// Nothing happened.
    Empty,
    /// An epoch was opened, and nothing else happened: a job can be started.
    Awaiting { epoch: u32 },
    /// No job is started, and none can be, since a second epoch was opened before, or the text of
    /// the job that was started is refused. Further epochs can be opened; this is the last.
    Jobless { epoch: u32 },
    /// A job is started.
    Running(Graph),
}
