ghost use Rattle.std.specs.Prelude.{◌≡◌};
ghost use Rattle.part_store.specs.Answers.{store_error};
ghost use Rattle.part_store.specs.declared.store_error.StoreError.TheVariants.{NoMemory};

use estate::{EstateError, PartName};
use std::alloc::{AllocError, AllocFailed};

/// Why a part was not put, or its cells were not read.
#[derive(Clone, Copy, Debug, PartialEq, Eq)]
pub enum StoreError {
    /// The part is not held.
    Gone(PartName),
    /// The shelf had a fault. A part that was put stands whole, or is absent.
    ShelfFault,
    /// The bytes of this cell are no rows of the width: at this byte of the cell, counted from 0,
    /// the first row begins that is none. The cells before it are such rows.
    BadCell {
        name: PartName,
        edge: u32,
        cell: u32,
        at: u64,
    },
    /// Nothing was put.
    NoMemory,
}

impl From<EstateError> for StoreError {
    ghost from_gives = { λ error made. made ≡ store_error error };

    fn from(error: EstateError) -> Self {
        match error {
            EstateError::Failed => StoreError::ShelfFault,
            EstateError::NoMemory => StoreError::NoMemory,
        }
    }
}

impl From<AllocError> for StoreError {
    ghost from_gives = { λ _ made. made ≡ NoMemory };

    fn from(_: AllocError) -> Self {
        StoreError::NoMemory
    }
}

impl<T: Drop> From<AllocFailed<T>> for StoreError {
    ghost from_gives = { λ _ made. made ≡ NoMemory };

    fn from(_: AllocFailed<T>) -> Self {
        StoreError::NoMemory
    }
}
