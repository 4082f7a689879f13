//! Why a check ends before its end: the files clash, or one of them isn't read. Each step of a check answers it.
ghost use Rattle.std.specs.Prelude.{◌≡◌};
ghost use Rattle.data_walk.specs.declared.refusal.Refusal.TheVariants as refusal;
ghost use Rattle.data_file.specs.declared.reading.DataError.TheVariants as data_error;
ghost use Rattle.data_walk.specs.Refusals.{clash_at, damaged_at};

use crate::clash::Clash;
use bti_nodes::{Cause, Damage};
use data_file::DataError;
use key_types::NoMemory;
use outside::{Failed, Part};

/// A clash, and where it stands.
#[derive(Clone, Copy, Debug, PartialEq, Eq)]
pub struct Mismatch {
    pub part: Part,
    pub position: u64,
    pub clash: Clash,
}

/// Why a step of a check ended.
#[derive(Clone, Copy, Debug, PartialEq, Eq)]
pub enum Refusal {
    /// The files clash.
    Clashes(Mismatch),
    /// A file isn't read.
    Unread(DataError),
}

impl From<DataError> for Refusal {
    ghost from_gives = { λ e r. r ≡ refusal.Unread e };

    fn from(e: DataError) -> Refusal {
        Refusal::Unread(e)
    }
}

impl From<NoMemory> for Refusal {
    ghost from_gives = { λ _ r. r ≡ refusal.Unread data_error.NoMemory };

    fn from(_e: NoMemory) -> Refusal {
        Refusal::Unread(DataError::NoMemory)
    }
}

impl From<Failed> for Refusal {
    ghost from_gives = { λ _ r. r ≡ refusal.Unread data_error.StoreFault };

    fn from(_e: Failed) -> Refusal {
        Refusal::Unread(DataError::StoreFault)
    }
}

/// The refusal for a clash at a place.
pub fn clash_at(part: Part, position: u64, clash: Clash) -> Refusal
    ensures { result ≡ clash_at part position clash }
{
    Refusal::Clashes(Mismatch {
        part,
        position,
        clash,
    })
}

/// The refusal for damage at a place of Data.db.
pub fn damaged_at(position: u64, cause: Cause) -> Refusal
    ensures { result ≡ damaged_at position cause }
{
    Refusal::Unread(DataError::Damaged(Damage {
        part: Part::Data,
        position,
        cause,
    }))
}
