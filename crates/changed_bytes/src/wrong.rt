//! Why the plain check of a table ends before its end. Its steps answer these.
use crate::fault::Fault;
use crate::reader_error::ReaderError;
use crate::table::Read;
use std::alloc::{AllocError, AllocFailed};

/// A whole number that a file spells, or the complement of one: -1 less the number.
#[derive(Clone, Copy, PartialEq, Eq)]
pub enum Spelled {
    Plain(u64),
    Complement(u64),
}

/// What stands at a place where Data.db gives another thing.
#[derive(Clone, Copy)]
pub enum Other {
    Order,
    Path,
    Key,
    Number { found: Spelled, wanted: Spelled },
}

/// A place of a file, and what is other there.
#[derive(Clone, Copy)]
pub struct Clash {
    pub part: &'static str,
    pub position: u64,
    pub other: Other,
}

/// Damage, a clash, or why the check couldn't go on.
#[derive(Clone, Copy)]
pub enum Wrong {
    Damaged(Fault),
    Unsound(Clash),
    Stopped(ReaderError),
}

/// The clash at a place.
pub fn clash_at(part: &'static str, position: u64, other: Other) -> Wrong {
    Wrong::Unsound(Clash {
        part,
        position,
        other,
    })
}

/// What was read where it is sound.
pub fn sound<T>(read: Read<T>) -> Result<T, Wrong> {
    match read {
        Ok(Ok(found)) => Ok(found),
        Ok(Err(fault)) => Err(Wrong::Damaged(fault)),
        Err(e) => Err(Wrong::Stopped(e)),
    }
}

/// Looks whether a number is the one that Data.db gives.
pub fn need_number(
    part: &'static str,
    position: u64,
    found: Spelled,
    wanted: Spelled,
) -> Result<(), Wrong> {
    if found == wanted {
        Ok(())
    } else {
        Err(clash_at(part, position, Other::Number { found, wanted }))
    }
}

impl From<ReaderError> for Wrong {
    fn from(e: ReaderError) -> Wrong {
        Wrong::Stopped(e)
    }
}

impl From<AllocError> for Wrong {
    fn from(_e: AllocError) -> Wrong {
        Wrong::Stopped(ReaderError::NoMemory)
    }
}

impl<T: Drop> From<AllocFailed<T>> for Wrong {
    fn from(_e: AllocFailed<T>) -> Wrong {
        Wrong::Stopped(ReaderError::NoMemory)
    }
}
