ghost use Rattle.std.specs.Prelude.{◌≡◌};
ghost use Rattle.estate.specs.declared.input_error.InputError.TheVariants.{NoMemory};

use std::alloc::{AllocError, AllocFailed};

#[derive(Clone, Copy, Debug, PartialEq, Eq)]
pub enum InputError {
    /// The inputs had a fault, which they counted.
    Failed,
    /// Nothing changed.
    NoMemory,
}

impl From<AllocError> for InputError {
    ghost from_gives = { λ _ e. e ≡ NoMemory };

    fn from(_: AllocError) -> Self {
        InputError::NoMemory
    }
}

impl<T: Drop> From<AllocFailed<T>> for InputError {
    ghost from_gives = { λ _ e. e ≡ NoMemory };

    fn from(_: AllocFailed<T>) -> Self {
        InputError::NoMemory
    }
}
