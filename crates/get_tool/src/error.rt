//! Why nothing is shown. The command ends with the status of the same name.
ghost use Rattle.std.specs.Prelude.{◌≡◌};
ghost use Rattle.get_tool.specs.Shown.{error_of, key_error};
ghost use Rattle.get_tool.specs.declared.error.GetError.TheVariants as get_error;

use crate::asked::KeyStop;
use bti_nodes::Damage;
use key_types::NoMemory;
use table_reader::TableFault;
use thiserror::Error;

/// Why nothing is shown.
#[derive(Clone, Copy, Debug, PartialEq, Eq, Error)]
pub enum GetError {
    /// The text names no key of the table.
    #[error("not the text of a key")]
    Usage,
    /// The store failed.
    #[error("the store failed")]
    StoreFault,
    /// A file of the table is damaged.
    #[error("a file of the table is damaged")]
    Damaged(Damage),
    /// The schema's file isn't there or isn't whole.
    #[error("the table was not written to its end")]
    Unfinished,
    /// Memory ran out.
    #[error("out of memory")]
    NoMemory,
}

impl From<TableFault> for GetError {
    ghost from_gives = { λ e f. f ≡ error_of e };

    fn from(e: TableFault) -> GetError {
        match e {
            TableFault::StoreFault => GetError::StoreFault,
            TableFault::Damaged(damage) => GetError::Damaged(damage),
            TableFault::Unfinished => GetError::Unfinished,
            TableFault::NoMemory => GetError::NoMemory,
        }
    }
}

impl From<KeyStop> for GetError {
    ghost from_gives = { λ e f. f ≡ key_error e };

    fn from(e: KeyStop) -> GetError {
        match e {
            KeyStop::Refused => GetError::Usage,
            KeyStop::NoMemory => GetError::NoMemory,
        }
    }
}

impl From<NoMemory> for GetError {
    ghost from_gives = { λ _ f. f ≡ get_error.NoMemory };

    fn from(_e: NoMemory) -> GetError {
        GetError::NoMemory
    }
}
