use crate::job_view::JobView;

/// What a command prints that changes nothing.
#[derive(Clone, Copy, Debug, PartialEq, Eq)]
pub enum View {
    /// Something of the job that the inputs tell.
    OfJob(JobView),
    /// The events of the log.
    Events,
}
