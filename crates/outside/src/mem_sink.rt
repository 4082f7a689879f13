//! A sink in memory with scripted failures, for tests: it tells what was written.
ghost use Rattle.std.specs.Prelude.{◌≡◌, ◌⊎◌, ◌+◌, ◌-◌, ◌^◌, ◌<◌, ◌==◌, ◌++◌, if◌then◌else◌, length, min, take, Some, [], IfSome, IsErr, IsOk};
ghost use Rattle.outside.specs.Causes.{HasCause};
ghost use Rattle.outside.specs.Script.{kept_by};
ghost use Rattle.outside.specs.Streams.{Pushes};

use crate::script::{Fail, kept_by};
use crate::stream::{Failed, Sink};
use std::alloc::Global;
use std::marker::Model;

/// A sink into memory, which fails where a test wants it. Contracts see it as a `Drain`.
#[derive(Debug, Drop)]
pub struct MemSink {
    bytes: Vec<u8>,
    fails: Vec<Fail>,
    calls: u64,
    faults: u64,
}

impl Model for MemSink {
    ghost use Rattle.outside.specs.Memory.{Drain};

    ghost Value = { Drain };

    ghost view = { λ s. record {
      written = s.bytes.items;
      fails = s.fails.items;
      calls = s.calls;
      faults = s.faults;
    } };
}

impl MemSink {
    /// An empty sink whose pushes in `fails` fail. A push of an empty piece is not counted as a call.
    pub fn new(alloc: Global, fails: Vec<Fail>) -> MemSink
        ensures { result ≡ record { written = []; fails = fails.items; calls = 0; faults = 0 } }
    {
        MemSink {
            bytes: Vec::new(alloc),
            fails,
            calls: 0,
            faults: 0,
        }
    }

    /// The bytes that were written.
    pub fn written(&self) -> &[u8]
        ensures { result.now ≡ self.now.written }
    {
        self.bytes.as_slice()
    }
}

impl Sink for MemSink {
    ghost written = { λ s. Some s.written };

    ghost faults = { λ s. s.faults };

    fn push(&mut self, piece: &[u8]) -> Result<(), Failed>
        ensures bytes { Pushes (Some self.old.written) (Some self.new.written) result piece.now }
        ensures empty { length piece.now ≡ 0 → IsOk result }
        ensures cause { HasCause self.old.faults self.new.faults result }
        // A piece that is not empty is a counted call, which fails and keeps what the script says.
        ensures calls { self.new.calls ≡ (if length piece.now == 0 then self.old.calls else min (self.old.calls + 1) (2 ^ 64 - 1)) }
        ensures scripted { 0 < length piece.now → IfSome (kept_by self.old.fails self.new.calls) (λ keep.
            IsErr result × ((self.new.written ≡ self.old.written ++ take keep piece.now) ⊎ (self.new.written ≡ self.old.written))) }
        ensures script { self.new.fails ≡ self.old.fails }
    {
        if piece.is_empty() {
            return Ok(());
        }
        self.calls = self.calls.saturating_add(1);
        if let Some(keep) = kept_by(self.fails.as_slice(), self.calls) {
            let kept = (keep as usize).min(piece.len());
            let (front, _) = piece.split_at(kept);
            let _ = self.bytes.extend_from_slice(front);
            self.faults = self.faults.saturating_add(1);
            return Err(Failed);
        }
        match self.bytes.extend_from_slice(piece) {
            Ok(()) => Ok(()),
            Err(_) => {
                self.faults = self.faults.saturating_add(1);
                Err(Failed)
            }
        }
    }
}
