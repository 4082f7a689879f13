//! Why the file of rows was not run to its end.
use outside::Failed;
use std::alloc::{AllocError, AllocFailed};
use std::{fmt, io};

/// Why a line of rows was not run.
#[derive(Clone, Copy, Debug, PartialEq, Eq, thiserror::Error)]
pub enum RowError {
    /// The line says nothing that rows say.
    #[error("no line of a row")]
    BadLine,
    /// A file could not be set.
    #[error("a file could not be set")]
    Store,
    /// The file of rows could not be read, or what was found not be printed.
    #[error("the file of rows could not be read")]
    Io,
    /// Memory ran out.
    #[error("out of memory")]
    NoMemory,
}

impl From<AllocError> for RowError {
    fn from(_e: AllocError) -> RowError {
        RowError::NoMemory
    }
}

impl<T: Drop> From<AllocFailed<T>> for RowError {
    fn from(_e: AllocFailed<T>) -> RowError {
        RowError::NoMemory
    }
}

impl From<Failed> for RowError {
    fn from(_e: Failed) -> RowError {
        RowError::Store
    }
}

impl From<io::Error> for RowError {
    fn from(_e: io::Error) -> RowError {
        RowError::Io
    }
}

impl From<fmt::Error> for RowError {
    fn from(_e: fmt::Error) -> RowError {
        RowError::Io
    }
}
