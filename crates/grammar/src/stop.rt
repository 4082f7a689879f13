//! Where a reading stops: every reading of the crates above answers it.
ghost use Rattle.std.specs.Prelude.{◌≡◌};
ghost use Rattle.grammar.specs.Code.{Furthest};

use key_types::NoMemory;
use std::alloc::{AllocError, AllocFailed};
use thiserror::Error;

/// Why nothing was read.
#[derive(Clone, Copy, Debug, PartialEq, Eq, Error)]
pub enum Stop {
    /// Memory ran out.
    #[error("out of memory")]
    Memory,
    /// No text of the grammar goes on where this many bytes are left.
    #[error("nothing goes on where {0} bytes are left")]
    At(usize),
}

impl From<AllocError> for Stop {
    ghost use Rattle.grammar.specs.declared.stop.Stop.TheVariants.{Memory};

    ghost from_gives = { λ _ e. e ≡ Memory };

    fn from(_e: AllocError) -> Stop {
        Stop::Memory
    }
}

impl<T: Drop> From<AllocFailed<T>> for Stop {
    ghost use Rattle.grammar.specs.declared.stop.Stop.TheVariants.{Memory};

    ghost from_gives = { λ _ e. e ≡ Memory };

    fn from(_e: AllocFailed<T>) -> Stop {
        Stop::Memory
    }
}

impl From<NoMemory> for Stop {
    ghost use Rattle.grammar.specs.declared.stop.Stop.TheVariants.{Memory};

    ghost from_gives = { λ _ e. e ≡ Memory };

    fn from(_e: NoMemory) -> Stop {
        Stop::Memory
    }
}

/// Of two stops the one further on, where fewer bytes are left; want of memory before both.
pub fn further(a: Stop, b: Stop) -> Stop
    ensures { Furthest a b result }
{
    match (a, b) {
        (Stop::At(a), Stop::At(b)) => Stop::At(a.min(b)),
        _ => Stop::Memory,
    }
}
