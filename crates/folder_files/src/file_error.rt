ghost use Rattle.std.specs.Prelude.{◌≡◌};
ghost use Rattle.folder_files.specs.declared.file_error.FileError.TheVariants.{NoMemory};

use std::alloc::{AllocError, AllocFailed};
use std::io;

/// Why a call on real files gave nothing.
#[derive(Clone, Copy, Debug, PartialEq, Eq)]
pub enum FileError {
    /// The system refused, or what stands there has another form.
    Failed,
    /// There was no memory, and nothing was changed.
    NoMemory,
}

impl From<AllocError> for FileError {
    ghost from_gives = { λ _ e. e ≡ NoMemory };

    fn from(_: AllocError) -> Self {
        FileError::NoMemory
    }
}

impl<T: Drop> From<AllocFailed<T>> for FileError {
    ghost from_gives = { λ _ e. e ≡ NoMemory };

    fn from(_: AllocFailed<T>) -> Self {
        FileError::NoMemory
    }
}

impl From<io::Error> for FileError {
    fn from(error: io::Error) -> Self {
        if error.kind() == io::ErrorKind::OutOfMemory {
            FileError::NoMemory
        } else {
            FileError::Failed
        }
    }
}
