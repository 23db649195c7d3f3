/// What the program does not serve yet.
#[derive(Clone, Copy, Debug, PartialEq, Eq)]
pub enum Unbuilt {
    /// A job whose name has a commit already.
    Commit,
    /// The generated job.
    Generate,
    /// A run with workers.
    Workers,
}
