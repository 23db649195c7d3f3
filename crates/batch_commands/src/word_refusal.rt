ghost use Rattle.std.specs.Prelude.{◌≡◌};
ghost use Rattle.batch_commands.specs.Refusals.{word_refusal};

use crate::Unbuilt;
use batch_words::{WordError, WordKind};

/// Why the words of a command are not served.
#[derive(Clone, Copy, Debug, PartialEq, Eq)]
pub enum WordRefusal {
    /// They are no command of this call: the fault is at word number `at`, from 0.
    Usage { at: u64, kind: WordKind },
    NotBuilt { what: Unbuilt },
    NoMemory,
}

impl From<WordError> for WordRefusal {
    ghost from_gives = { λ error refusal. refusal ≡ word_refusal error };

    fn from(error: WordError) -> Self {
        match error {
            WordError::Fault { at, kind } => WordRefusal::Usage { at, kind },
            WordError::NoMemory => WordRefusal::NoMemory,
        }
    }
}
