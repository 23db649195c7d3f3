ghost use Rattle.std.specs.Prelude.{◌≡◌};
ghost use Rattle.event_codec.specs.declared.event_error.EventError.TheVariants.{NoMemory};

use graph_model::Events;
use std::alloc::{AllocError, AllocFailed};

/// Why a block was not decoded.
#[derive(Debug, Drop)]
pub enum EventError {
    /// The event of this number in the block, from 0, is the first that has no spelling; the events
    /// before it are these.
    Bad { at: u64, before: Events },
    NoMemory,
}

impl From<AllocError> for EventError {
    ghost from_gives = { λ _ error. error ≡ NoMemory };

    fn from(_: AllocError) -> Self {
        EventError::NoMemory
    }
}

impl<T: Drop> From<AllocFailed<T>> for EventError {
    ghost from_gives = { λ _ error. error ≡ NoMemory };

    fn from(_: AllocFailed<T>) -> Self {
        EventError::NoMemory
    }
}
