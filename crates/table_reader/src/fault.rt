//! Why a table isn't opened or read. All calls of this crate answer it; a store's fault comes only where the count of
//! its faults rose, and `Unfinished` only from `open`.
ghost use Rattle.std.specs.Prelude.{◌≡◌};
ghost use Rattle.table_reader.specs.Faults.{fault_of, file_fault};
ghost use Rattle.table_reader.specs.declared.fault.TableFault.TheVariants as table_fault;

use bti_nodes::Damage;
use data_file::DataError;
use key_types::NoMemory;
use table_files::FileError;
use thiserror::Error;

/// Why a table isn't opened or read.
#[derive(Clone, Copy, Debug, PartialEq, Eq, Error)]
pub enum TableFault {
    /// The store failed.
    #[error("the store failed")]
    StoreFault,
    /// What should begin at a place of a file doesn't begin there.
    #[error("a file of the table is damaged")]
    Damaged(Damage),
    /// The schema's file, which is written last, isn't there or isn't whole.
    #[error("the table was not written to its end")]
    Unfinished,
    /// Memory ran out.
    #[error("out of memory")]
    NoMemory,
}

impl From<NoMemory> for TableFault {
    ghost from_gives = { λ _ e. e ≡ table_fault.NoMemory };

    fn from(_e: NoMemory) -> TableFault {
        TableFault::NoMemory
    }
}

impl From<DataError> for TableFault {
    ghost from_gives = { λ e f. f ≡ fault_of e };

    fn from(e: DataError) -> TableFault {
        match e {
            DataError::StoreFault => TableFault::StoreFault,
            DataError::Damaged(damage) => TableFault::Damaged(damage),
            DataError::NoMemory => TableFault::NoMemory,
        }
    }
}

impl From<FileError> for TableFault {
    ghost from_gives = { λ e f. f ≡ file_fault e };

    fn from(e: FileError) -> TableFault {
        match e {
            FileError::StoreFault => TableFault::StoreFault,
            FileError::NoMemory => TableFault::NoMemory,
        }
    }
}
