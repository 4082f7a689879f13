//! Why a file isn't read. Readers of files answer it; a store's fault comes only where the count of its faults rose.
ghost use Rattle.std.specs.Prelude.{◌≡◌};

use key_types::NoMemory;
use outside::Failed;
use thiserror::Error;

/// Why a file isn't read.
#[derive(Clone, Copy, Debug, PartialEq, Eq, Error)]
pub enum FileError {
    /// The store failed.
    #[error("the store failed")]
    StoreFault,
    /// Memory ran out.
    #[error("out of memory")]
    NoMemory,
}

impl From<NoMemory> for FileError {
    ghost use Rattle.table_files.specs.declared.error.FileError.TheVariants as file_error;

    ghost from_gives = { λ _ e. e ≡ file_error.NoMemory };

    fn from(_e: NoMemory) -> FileError {
        FileError::NoMemory
    }
}

impl From<Failed> for FileError {
    ghost use Rattle.table_files.specs.declared.error.FileError.TheVariants as file_error;

    ghost from_gives = { λ _ e. e ≡ file_error.StoreFault };

    fn from(_e: Failed) -> FileError {
        FileError::StoreFault
    }
}
