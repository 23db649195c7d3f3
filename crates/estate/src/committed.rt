use crate::Commit;

/// A commit, and the moment from which on it stands.
#[derive(Debug, Drop)]
pub struct Committed {
    pub since: u64,
    pub commit: Commit,
}
