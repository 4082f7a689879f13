//! The traits of sources and sinks, whose contracts the crates above use: a failure is counted, and contents are told or
//! not.
ghost use Rattle.std.specs.Prelude.{◌<◌, ◌≤◌, ◌≡◌, length, List, ℕ, IfOk, IsOk, Option};
ghost use Rattle.outside.specs.Streams.{Pulls, Pushes};
ghost use Rattle.outside.specs.Causes.{HasCause};

use thiserror::Error;

/// A call to the outside that failed.
#[derive(Clone, Copy, Debug, PartialEq, Eq, Error)]
#[error("a call to the outside failed")]
pub struct Failed;

/// Where bytes come from.
pub trait Source {
    /// The bytes that are left, where the source tells them.
    ghost left: { Self → Option (List ℕ) };

    /// How often it has failed.
    ghost faults: { Self → ℕ };

    /// Takes bytes from the front of what is left.
    fn pull(&mut self, into: &mut [u8]) -> Result<usize, Failed>
        requires { 0 < length into.old }
        ensures bound { IfOk result (λ n. n ≤ length into.new) }
        ensures bytes { Pulls (left self.old) (left self.new) result into.new }
        ensures cause { HasCause (faults self.old) (faults self.new) result };
}

/// Where bytes go.
pub trait Sink {
    /// The bytes that were written, where the sink tells them.
    ghost written: { Self → Option (List ℕ) };

    /// How often it has failed.
    ghost faults: { Self → ℕ };

    /// Puts the piece behind what was written.
    fn push(&mut self, piece: &[u8]) -> Result<(), Failed>
        ensures bytes { Pushes (written self.old) (written self.new) result piece.now }
        ensures empty { length piece.now ≡ 0 → IsOk result }
        ensures cause { HasCause (faults self.old) (faults self.new) result };
}
