//! Why the answers were not compared to their end.
use outside::Failed;
use std::alloc::{AllocError, AllocFailed};
use std::{fmt, io};

/// What went wrong.
#[derive(Clone, Copy, Debug, PartialEq, Eq, thiserror::Error)]
pub enum ReaderError {
    /// The count could not be printed.
    #[error("the count could not be printed")]
    Io,
    /// The table was not written, or a file of it isn't there.
    #[error("the table was not written")]
    NotLoaded,
    /// Memory ran out.
    #[error("out of memory")]
    NoMemory,
}

impl From<AllocError> for ReaderError {
    fn from(_e: AllocError) -> ReaderError {
        ReaderError::NoMemory
    }
}

impl<T: Drop> From<AllocFailed<T>> for ReaderError {
    fn from(_e: AllocFailed<T>) -> ReaderError {
        ReaderError::NoMemory
    }
}

impl From<Failed> for ReaderError {
    fn from(_e: Failed) -> ReaderError {
        ReaderError::NotLoaded
    }
}

impl From<fmt::Error> for ReaderError {
    fn from(_e: fmt::Error) -> ReaderError {
        ReaderError::NoMemory
    }
}

impl From<io::Error> for ReaderError {
    fn from(_e: io::Error) -> ReaderError {
        ReaderError::Io
    }
}
