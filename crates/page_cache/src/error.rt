//! Why a page isn't had. The cache answers it; a store's fault comes only where the count of its faults rose.
ghost use Rattle.std.specs.Prelude.{◌≡◌};
ghost use Rattle.page_cache.specs.declared.error.ReadError.TheVariants as read_error;

use key_types::NoMemory;
use outside::Failed;
use std::alloc::AllocFailed;
use thiserror::Error;

/// Why a page isn't had.
#[derive(Clone, Copy, Debug, PartialEq, Eq, Error)]
pub enum ReadError {
    /// The store failed.
    #[error("the store failed")]
    StoreFault,
    /// Memory ran out.
    #[error("out of memory")]
    NoMemory,
}

impl From<NoMemory> for ReadError {
    ghost from_gives = { λ _ e. e ≡ read_error.NoMemory };

    fn from(_e: NoMemory) -> ReadError {
        ReadError::NoMemory
    }
}

impl<T: Drop> From<AllocFailed<T>> for ReadError {
    ghost from_gives = { λ _ e. e ≡ read_error.NoMemory };

    fn from(_e: AllocFailed<T>) -> ReadError {
        ReadError::NoMemory
    }
}

impl From<Failed> for ReadError {
    ghost from_gives = { λ _ e. e ≡ read_error.StoreFault };

    fn from(_e: Failed) -> ReadError {
        ReadError::StoreFault
    }
}
