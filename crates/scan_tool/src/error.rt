//! Why a scan isn't printed to its end. The command ends with the status of the same name.
ghost use Rattle.std.specs.Prelude.{◌≡◌};
ghost use Rattle.scan_tool.specs.Errors.{bound_error, error_of};
ghost use Rattle.scan_tool.specs.declared.error.ScanError.TheVariants as scan_error;

use crate::bound::BoundStop;
use bti_nodes::Damage;
use key_types::NoMemory;
use outside::Failed;
use table_reader::TableFault;
use thiserror::Error;

/// Why a scan isn't printed to its end.
#[derive(Clone, Copy, Debug, PartialEq, Eq, Error)]
pub enum ScanError {
    /// A text names no bound of the table.
    #[error("not the text of a bound")]
    Usage,
    /// The sink failed.
    #[error("the sink failed")]
    SinkFault,
    /// The store failed.
    #[error("the store failed")]
    StoreFault,
    /// A file of the table is damaged.
    #[error("a file of the table is damaged")]
    Damaged(Damage),
    /// The schema's file isn't there or isn't whole.
    #[error("the table was not written to its end")]
    Unfinished,
    /// Memory ran out.
    #[error("out of memory")]
    NoMemory,
}

impl From<TableFault> for ScanError {
    ghost from_gives = { λ e f. f ≡ error_of e };

    fn from(e: TableFault) -> ScanError {
        match e {
            TableFault::StoreFault => ScanError::StoreFault,
            TableFault::Damaged(damage) => ScanError::Damaged(damage),
            TableFault::Unfinished => ScanError::Unfinished,
            TableFault::NoMemory => ScanError::NoMemory,
        }
    }
}

impl From<BoundStop> for ScanError {
    ghost from_gives = { λ e f. f ≡ bound_error e };

    fn from(e: BoundStop) -> ScanError {
        match e {
            BoundStop::Refused => ScanError::Usage,
            BoundStop::NoMemory => ScanError::NoMemory,
        }
    }
}

impl From<Failed> for ScanError {
    ghost from_gives = { λ _ f. f ≡ scan_error.SinkFault };

    fn from(_e: Failed) -> ScanError {
        ScanError::SinkFault
    }
}

impl From<NoMemory> for ScanError {
    ghost from_gives = { λ _ f. f ≡ scan_error.NoMemory };

    fn from(_e: NoMemory) -> ScanError {
        ScanError::NoMemory
    }
}
