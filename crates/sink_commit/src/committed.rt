/// How the job's commit came to stand in the sink.
#[derive(Clone, Copy, Debug, PartialEq, Eq)]
pub enum Committed {
    /// This job's text stood under the id already.
    Before,
    /// The commit was appended in this call.
    Fresh,
}
