ghost use Rattle.std.specs.Prelude.{◌≡◌};
ghost use Rattle.row_core.specs.declared.row_error.RowError.TheVariants.{NoMemory};

use std::alloc::{AllocError, AllocFailed};

/// Why bytes were not read as rows.
#[derive(Clone, Copy, Debug, PartialEq, Eq)]
pub enum RowError {
    /// At this byte, counted from 0, a row should begin, and none stands there.
    Bad { at: u64 },
    NoMemory,
}

impl From<AllocError> for RowError {
    ghost from_gives = { λ _ e. e ≡ NoMemory };

    fn from(_: AllocError) -> Self {
        RowError::NoMemory
    }
}

impl<T: Drop> From<AllocFailed<T>> for RowError {
    ghost from_gives = { λ _ e. e ≡ NoMemory };

    fn from(_: AllocFailed<T>) -> Self {
        RowError::NoMemory
    }
}
