ghost use Rattle.std.specs.Prelude.{◌≡◌};
ghost use Rattle.sink_commit.specs.Answers.{commit_error};

use estate::EstateError;
use row_core::Bytes;

#[derive(Debug, Drop)]
pub enum CommitError {
    /// The text of another job stands under the id.
    IdTaken { other: Bytes },
    /// The sink had a fault. The commit stands whole or is absent.
    SinkFault,
    /// Nothing changed.
    NoMemory,
}

impl From<EstateError> for CommitError {
    ghost from_gives = { λ error made. made ≡ commit_error error };

    fn from(error: EstateError) -> Self {
        match error {
            EstateError::Failed => CommitError::SinkFault,
            EstateError::NoMemory => CommitError::NoMemory,
        }
    }
}
