//! What a reader of index and data files finds wrong with them, and what stops a writer of them.
ghost use Rattle.std.specs.Prelude.{◌≡◌};
ghost use Rattle.bti_nodes.specs.Causes.{cause_of};
ghost use Rattle.bti_nodes.specs.declared.damage.PackError.TheVariants as stops;

use crate::node::NodeError;
use key_types::NoMemory;
use outside::{Failed, Part};
use thiserror::Error;

/// What is wrong at a place of a file. The first four are a node's, the others those of the footer, of an
/// entry of the row index, of a partition's head and of a row.
#[derive(Clone, Copy, Debug, PartialEq, Eq, Error)]
pub enum Cause {
    /// The bytes of the node go past its page.
    #[error("a node goes past its page")]
    PastPage,
    /// The transition bytes of the node don't ascend, or there are none where there have to be.
    #[error("a node's transition bytes don't ascend")]
    BadOrder,
    /// A child of the node doesn't stand before it in the file.
    #[error("a child of a node doesn't stand before it")]
    BadPointer,
    /// The payload bits of the node name no payload that its type can have.
    #[error("a node's payload bits name no payload")]
    BadPayload,
    /// The last bytes of the partition index are no footer.
    #[error("the partition index has no footer")]
    BadFooter,
    /// No entry of the row index begins here.
    #[error("no entry of the row index begins here")]
    BadEntry,
    /// No partition begins here.
    #[error("no partition begins here")]
    BadHead,
    /// No row, and no end of a partition, begins here.
    #[error("no row begins here")]
    BadRow,
}

impl From<NodeError> for Cause {
    ghost from_gives = { λ e c. c ≡ cause_of e };

    fn from(e: NodeError) -> Cause {
        match e {
            NodeError::PastPage => Cause::PastPage,
            NodeError::BadOrder => Cause::BadOrder,
            NodeError::BadPointer => Cause::BadPointer,
            NodeError::BadPayload => Cause::BadPayload,
        }
    }
}

/// A place of a file that is damaged: the file's part of the table, the position in bytes from the file's
/// start, and what is wrong there.
#[derive(Clone, Copy, Debug, PartialEq, Eq)]
pub struct Damage {
    pub part: Part,
    pub position: u64,
    pub cause: Cause,
}

/// Why a writer of files stopped.
#[derive(Clone, Copy, Debug, PartialEq, Eq, Error)]
pub enum PackError {
    /// The store failed.
    #[error("the store failed")]
    StoreFault,
    /// Memory ran out.
    #[error("out of memory")]
    NoMemory,
}

impl From<Failed> for PackError {
    ghost from_gives = { λ _ e. e ≡ stops.StoreFault };

    fn from(_e: Failed) -> PackError {
        PackError::StoreFault
    }
}

impl From<NoMemory> for PackError {
    ghost from_gives = { λ _ e. e ≡ stops.NoMemory };

    fn from(_e: NoMemory) -> PackError {
        PackError::NoMemory
    }
}
