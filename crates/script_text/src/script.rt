//! The script as the layers above see it.
use crate::batch::BatchList;
use key_types::NoMemory;
use thiserror::Error;

/// A whole script.
#[derive(Debug, Drop)]
pub struct Script {
    pub batches: BatchList,
    /// The number of puts in all batches.
    pub puts: u64,
}

/// Why a line isn't accepted. Places and lengths count bytes from the start of the line.
#[derive(Clone, Copy, Debug, PartialEq, Eq, Error)]
pub enum LineCause {
    /// The line is no UTF-8.
    #[error("not UTF-8")]
    NotUtf8,
    /// The length of the longest beginning of the line that begins a line of the grammar.
    #[error("bad text at {0}")]
    BadText(usize),
    /// The place of the first number that its type doesn't have.
    #[error("number out of range at {0}")]
    OutOfRange(usize),
    /// The length of a key string that is too long.
    #[error("the key's string would have {0} bytes")]
    KeyTooLong(usize),
    /// The length of a value that is too long.
    #[error("the value has {0} bytes")]
    ValueTooLong(usize),
}

/// Why bytes are no script.
#[derive(Clone, Copy, Debug, PartialEq, Eq, Error)]
pub enum ScriptError {
    /// The first line that isn't accepted, counted from 1, and its cause.
    #[error("line {0}: {1}")]
    BadLine(u32, LineCause),
    /// It has too many bytes, or too many lines.
    #[error("too large")]
    TooLarge,
    /// Memory ran out.
    #[error("out of memory")]
    NoMemory,
}

impl From<NoMemory> for ScriptError {
    ghost use Rattle.std.specs.Prelude.{◌≡◌};
    ghost use Rattle.script_text.specs.declared.script.ScriptError.TheVariants as script_error;

    ghost from_gives = { λ _ e. e ≡ script_error.NoMemory };

    fn from(_e: NoMemory) -> ScriptError {
        ScriptError::NoMemory
    }
}
