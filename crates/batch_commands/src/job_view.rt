/// What a command prints of a job.
#[derive(Clone, Copy, Debug, PartialEq, Eq)]
pub enum JobView {
    /// How many nodes and sinks the job has.
    Check,
    /// The vertices of its plan.
    Plan,
    /// The text that it commits, found without its commit.
    Reference,
}
