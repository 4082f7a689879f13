//! Why the runs were not judged to their end.
use outside::Failed;
use std::alloc::{AllocError, AllocFailed};
use std::{fmt, io};

/// What went wrong.
#[derive(Clone, Copy, Debug, PartialEq, Eq, thiserror::Error)]
pub enum TrialError {
    /// The counts could not be printed.
    #[error("the counts could not be printed")]
    Io,
    /// The table was not written, or a file of it isn't there.
    #[error("the table was not written")]
    NotLoaded,
    /// Memory ran out.
    #[error("out of memory")]
    NoMemory,
}

impl From<AllocError> for TrialError {
    fn from(_e: AllocError) -> TrialError {
        TrialError::NoMemory
    }
}

impl<T: Drop> From<AllocFailed<T>> for TrialError {
    fn from(_e: AllocFailed<T>) -> TrialError {
        TrialError::NoMemory
    }
}

impl From<Failed> for TrialError {
    fn from(_e: Failed) -> TrialError {
        TrialError::NotLoaded
    }
}

impl From<fmt::Error> for TrialError {
    fn from(_e: fmt::Error) -> TrialError {
        TrialError::NoMemory
    }
}

impl From<io::Error> for TrialError {
    fn from(_e: io::Error) -> TrialError {
        TrialError::Io
    }
}
