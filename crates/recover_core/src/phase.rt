/// What is left of a job after its log and its sink were read.
#[derive(Clone, Copy, Debug, PartialEq, Eq)]
pub enum Phase {
    /// Nothing had happened; its first epoch was opened.
    Fresh,
    /// It goes on in a new epoch.
    Going,
    /// Its commit stands; it has only to end.
    Committed,
    /// Its commit stands, and it has ended.
    Finished,
    /// Its troubles are spent, or it has ended so.
    Failed,
}
