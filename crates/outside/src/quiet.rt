//! A source and a sink that never fail, for a call that reads what the program made itself and drops what it answers.
//! Their counts of faults stay 0.
ghost use Rattle.std.specs.Prelude.{◌≡◌, ◌<◌, ◌≤◌, length, drop, None, Some, IsOk, IfOk};
ghost use Rattle.outside.specs.Streams.{Pulls};

use crate::stream::{Failed, Sink, Source};
use std::marker::Model;

/// A source over bytes in memory that never fails. Contracts see the bytes that are left.
#[derive(Debug, Drop)]
pub struct QuietSource {
    bytes: Vec<u8>,
    at: usize,
}

impl Model for QuietSource {
    ghost use Rattle.std.specs.Prelude.{◌≤◌, drop, length, List, ℕ};

    ghost Value = { List ℕ };

    ghost view = { λ s. drop s.at s.bytes.items };

    ghost invariant = { λ s. s.at ≤ length s.bytes.items };
}

impl QuietSource {
    /// A source of these bytes.
    pub fn new(bytes: Vec<u8>) -> QuietSource
        ensures { result ≡ bytes.items }
    {
        QuietSource { bytes, at: 0 }
    }
}

impl Source for QuietSource {
    ghost left = { λ s. Some s };

    ghost faults = { λ _. 0 };

    fn pull(&mut self, into: &mut [u8]) -> Result<usize, Failed>
        requires { 0 < length into.old }
        ensures bound { IfOk result (λ n. n ≤ length into.new) }
        ensures bytes { Pulls (Some self.old) (Some self.new) result into.new }
        ensures quiet { IsOk result }
    {
        let (_, rest) = self.bytes.as_slice().split_at(self.at);
        let count = rest.len().min(into.len());
        let (front, _) = rest.split_at(count);
        into[..count].copy_from_slice(front);
        self.at += count;
        Ok(count)
    }
}

/// A sink that drops what it is given and tells nothing.
#[derive(Clone, Copy, Debug, Default)]
pub struct NullSink;

impl NullSink {
    /// The sink.
    pub fn new() -> NullSink {
        NullSink
    }
}

impl Sink for NullSink {
    ghost written = { λ _. None };

    ghost faults = { λ _. 0 };

    fn push(&mut self, _: &[u8]) -> Result<(), Failed>
        ensures quiet { IsOk result }
    {
        Ok(())
    }
}
