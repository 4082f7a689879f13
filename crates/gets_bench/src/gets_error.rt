//! Why the gets were not made to their end.
use get_tool::KeyStop;
use std::io;
use table_reader::TableFault;

/// What went wrong.
#[derive(Clone, Copy, Debug, PartialEq, Eq, thiserror::Error)]
pub enum GetsError {
    /// The keys could not be read, or the sum could not be printed.
    #[error("the keys could not be read")]
    Io,
    /// A line is no key.
    #[error("a line is no key")]
    Key,
    /// The table could not be read.
    #[error("the table could not be read")]
    Table,
}

impl From<io::Error> for GetsError {
    fn from(_e: io::Error) -> GetsError {
        GetsError::Io
    }
}

impl From<KeyStop> for GetsError {
    fn from(_e: KeyStop) -> GetsError {
        GetsError::Key
    }
}

impl From<TableFault> for GetsError {
    fn from(_e: TableFault) -> GetsError {
        GetsError::Table
    }
}
