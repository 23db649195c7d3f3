ghost use Rattle.std.specs.Prelude.{◌≡◌};
ghost use Rattle.estate.specs.declared.estate_error.EstateError.TheVariants.{NoMemory};

use std::alloc::{AllocError, AllocFailed};

#[derive(Clone, Copy, Debug, PartialEq, Eq)]
pub enum EstateError {
    /// The part of the estate that was called had a fault.
    Failed,
    /// Nothing changed.
    NoMemory,
}

impl From<AllocError> for EstateError {
    ghost from_gives = { λ _ e. e ≡ NoMemory };

    fn from(_: AllocError) -> Self {
        EstateError::NoMemory
    }
}

impl<T: Drop> From<AllocFailed<T>> for EstateError {
    ghost from_gives = { λ _ e. e ≡ NoMemory };

    fn from(_: AllocFailed<T>) -> Self {
        EstateError::NoMemory
    }
}
