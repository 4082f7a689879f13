//! What may be asked, and why nothing is shown.
ghost use Rattle.std.specs.Prelude.{◌≡◌};

use key_types::NoMemory;
use thiserror::Error;

/// A part of a key.
#[derive(Clone, Copy, Debug, PartialEq, Eq)]
pub enum KeyPart {
    /// The components that say which partition a row is in.
    Partition,
    /// The components of a row within its partition.
    Clustering,
}

/// What is made of a text.
#[derive(Clone, Copy, Debug, PartialEq, Eq)]
pub enum KeyWay {
    /// The text is a list of components, and their string is shown.
    Encode,
    /// The text is a string in hexadecimal, and its components are shown.
    Decode,
}

/// Why nothing is shown of a text.
#[derive(Clone, Copy, Debug, PartialEq, Eq, Error)]
pub enum KeyFault {
    /// The text is no list of components that fit and have a string, or no string of such components.
    #[error("the text is refused")]
    Refused,
    /// Memory ran out.
    #[error("out of memory")]
    NoMemory,
}

impl From<NoMemory> for KeyFault {
    ghost use Rattle.key_tool.specs.declared.request.KeyFault.TheVariants as fault;

    ghost from_gives = { λ _ e. e ≡ fault.NoMemory };

    fn from(_e: NoMemory) -> KeyFault {
        KeyFault::NoMemory
    }
}
