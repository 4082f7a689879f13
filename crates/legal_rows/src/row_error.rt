//! Why the script was not run to its end.
use std::alloc::{AllocError, AllocFailed};
use std::{fmt, io};

/// What went wrong.
#[derive(Clone, Copy, Debug, PartialEq, Eq, thiserror::Error)]
pub enum RowError {
    /// The count could not be printed.
    #[error("the count could not be printed")]
    Io,
    /// What was printed is no text.
    #[error("no text was printed")]
    NoText,
    /// Memory ran out.
    #[error("out of memory")]
    NoMemory,
}

impl From<AllocError> for RowError {
    fn from(_e: AllocError) -> RowError {
        RowError::NoMemory
    }
}

impl<T: Drop> From<AllocFailed<T>> for RowError {
    fn from(_e: AllocFailed<T>) -> RowError {
        RowError::NoMemory
    }
}

impl From<fmt::Error> for RowError {
    fn from(_e: fmt::Error) -> RowError {
        RowError::NoMemory
    }
}

impl From<io::Error> for RowError {
    fn from(_e: io::Error) -> RowError {
        RowError::Io
    }
}
