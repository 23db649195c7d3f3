ghost use Rattle.std.specs.Prelude.{◌≡◌};
ghost use Rattle.batch_commands.specs.Refusals.{answer_to, estate_refusal, input_refusal, job_refusal, log_answer};
ghost use Rattle.batch_commands.specs.declared.refusal.Refusal.TheVariants.{Log, NoMemory, Words};

use crate::job_refusal::JobRefusal;
use crate::log_refusal::LogRefusal;
use crate::not_accepted::NotAccepted;
use crate::word_refusal::WordRefusal;
use crate::{Answer, Quantity, Unbuilt};
use estate::{EstateError, InputError};
use std::alloc::AllocError;

/// Why a command was not served.
#[derive(Debug, Drop)]
pub enum Refusal {
    Words(WordRefusal),
    Job(JobRefusal),
    /// The job's name has a commit.
    IdTaken,
    Log(LogRefusal),
    SinkFault,
    InputFault,
    NoMemory,
}

impl From<Refusal> for Answer {
    ghost from_gives = { λ refusal answer. answer ≡ answer_to refusal };

    fn from(refusal: Refusal) -> Self {
        match refusal {
            Refusal::Words(WordRefusal::Usage { at, kind }) => Answer::Usage { at, kind },
            Refusal::Words(WordRefusal::NotBuilt { what }) => Answer::NotBuilt { what },
            Refusal::Words(WordRefusal::NoMemory) | Refusal::NoMemory => Answer::NoMemory,
            Refusal::Job(JobRefusal { kind, node, name }) => {
                Answer::JobRefused { kind, node, name }
            }
            Refusal::IdTaken => Answer::NotBuilt {
                what: Unbuilt::Commit,
            },
            Refusal::Log(refusal) => Answer::from(refusal),
            Refusal::SinkFault => Answer::SinkFault,
            Refusal::InputFault => Answer::InputFault,
        }
    }
}

impl From<LogRefusal> for Answer {
    ghost from_gives = { λ refusal answer. answer ≡ log_answer refusal };

    fn from(refusal: LogRefusal) -> Self {
        match refusal {
            LogRefusal::Fault => Answer::LogFault,
            LogRefusal::TooLarge { asked } => Answer::TooLarge {
                what: Quantity::LogBytes,
                number: u128::from(asked),
            },
            LogRefusal::BadLog { block, event } => Answer::BadLog { block, event },
            LogRefusal::NoMemory => Answer::NoMemory,
        }
    }
}

impl From<WordRefusal> for Refusal {
    ghost from_gives = { λ words refusal. refusal ≡ Words words };

    fn from(words: WordRefusal) -> Self {
        Refusal::Words(words)
    }
}

impl From<LogRefusal> for Refusal {
    ghost from_gives = { λ log refusal. refusal ≡ Log log };

    fn from(log: LogRefusal) -> Self {
        Refusal::Log(log)
    }
}

impl From<NotAccepted> for Refusal {
    ghost from_gives = { λ error refusal. refusal ≡ job_refusal error };

    fn from(error: NotAccepted) -> Self {
        match error {
            NotAccepted::Refused(fault) => Refusal::Job(fault),
            NotAccepted::NoMemory => Refusal::NoMemory,
        }
    }
}

impl From<EstateError> for Refusal {
    ghost from_gives = { λ error refusal. refusal ≡ estate_refusal error };

    fn from(error: EstateError) -> Self {
        match error {
            EstateError::Failed => Refusal::SinkFault,
            EstateError::NoMemory => Refusal::NoMemory,
        }
    }
}

impl From<InputError> for Refusal {
    ghost from_gives = { λ error refusal. refusal ≡ input_refusal error };

    fn from(error: InputError) -> Self {
        match error {
            InputError::Failed => Refusal::InputFault,
            InputError::NoMemory => Refusal::NoMemory,
        }
    }
}

impl From<AllocError> for Refusal {
    ghost from_gives = { λ _ refusal. refusal ≡ NoMemory };

    fn from(_: AllocError) -> Self {
        Refusal::NoMemory
    }
}
