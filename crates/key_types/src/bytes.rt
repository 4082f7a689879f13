//! Growing bytes and the refusal for want of memory, which all crates use.
ghost use Rattle.std.specs.Prelude.{◌≡◌, ◌≤◌, [], ◌∷◌, ◌++◌, length, slice_get, take, drop, map, ◌-◌, OnOk, OnErr, Some, nat_eq, refl};
ghost use Rattle.std.specs.Option.{option_copied};
ghost use Rattle.std.specs.Cmp.{partial_equiv_from_equiv};
ghost use Rattle.std.specs.Cmp.Lexicographic.{slice_cmp, pointwise, nat_list_cmp_total, nat_list_eq_equiv, texts_ties, texts_po};
ghost use Rattle.std.specs.Ordering.{nat_cmp};

use std::alloc::{AllocError, AllocFailed, Global};
use std::cmp::Ordering;
use std::marker::Model;
use thiserror::Error;

/// Memory ran out.
#[derive(Clone, Copy, Debug, PartialEq, Eq, Error)]
#[error("out of memory")]
pub struct NoMemory;

impl From<AllocError> for NoMemory {
    fn from(_e: AllocError) -> NoMemory {
        NoMemory
    }
}

impl<T: Drop> From<AllocFailed<T>> for NoMemory {
    fn from(_e: AllocFailed<T>) -> NoMemory {
        NoMemory
    }
}

/// Growing bytes, which contracts see as a list of numbers below 256.
///
/// What finds no memory answers `NoMemory` and leaves the bytes as they were. Byte strings go by their first
/// different byte, unsigned, and a proper prefix is less.
#[derive(Debug, Drop)]
pub struct ByteList {
    items: Vec<u8>,
}

/// The string of a key, or a part of it.
pub type KeyBytes = ByteList;

/// The bytes of a row's value.
pub type ValueBytes = ByteList;

impl Model for ByteList {
    ghost use Rattle.std.specs.Prelude.{List, ℕ};

    ghost Value = { List ℕ };

    ghost view = { λ b. b.items.items };
}

impl ByteList {
    /// No bytes, and no memory yet.
    pub fn new(alloc: Global) -> ByteList
        ensures { result ≡ [] }
    {
        ByteList {
            items: Vec::new(alloc),
        }
    }

    /// The bytes of a vector.
    pub fn from_vec(items: Vec<u8>) -> ByteList
        ensures { result ≡ items.items }
    {
        ByteList { items }
    }

    /// The bytes as a vector.
    pub fn into_vec(self) -> Vec<u8>
        ensures { result.items ≡ self }
    {
        let ByteList { items } = self;
        items
    }

    /// Puts a byte at the end.
    pub fn push(&mut self, item: u8) -> Result<(), NoMemory>
        ensures ok { OnOk result (self.new ≡ self.old ++ item ∷ []) }
        ensures err { OnErr result (self.new ≡ self.old) }
    {
        self.items.push(item)?;
        Ok(())
    }

    /// Puts all of `more` at the end.
    pub fn extend(&mut self, more: &[u8]) -> Result<(), NoMemory>
        ensures ok { OnOk result (self.new ≡ self.old ++ more.now) }
        ensures err { OnErr result (self.new ≡ self.old) }
    {
        self.items.extend_from_slice(more)?;
        Ok(())
    }

    /// Keeps the first `len` bytes, or all where there are fewer.
    pub fn truncate(&mut self, len: usize)
        ensures { self.new ≡ take len self.old }
    {
        self.items.truncate(len);
    }

    /// Turns each byte from place `at` on into its complement.
    pub fn complement_from(&mut self, at: usize)
        requires { at ≤ length self.old }
        ensures { self.new ≡ take at self.old ++ map (λ b. 255 - b) (drop at self.old) }
    {
        let (_, tail) = self.items.as_mut_slice().split_at_mut(at);
        complement(tail);
    }

    /// The number of bytes.
    pub fn len(&self) -> usize
        ensures { result ≡ length self.now }
    {
        self.items.len()
    }

    /// The byte at place `i`, counted from 0, and `None` exactly where there are not so many.
    pub fn get(&self, i: usize) -> Option<&u8>
        ensures { option_copied result ≡ slice_get self.now i }
    {
        self.items.get(i)
    }

    /// The bytes as a slice.
    pub fn as_slice(&self) -> &[u8]
        ensures { result.now ≡ self.now }
    {
        self.items.as_slice()
    }
}

impl PartialEq for ByteList {
    ghost eq = { pointwise nat_eq };

    ghost laws = { partial_equiv_from_equiv nat_list_eq_equiv };

    fn eq(&self, other: &ByteList) -> bool {
        self.items == other.items
    }
}

impl Eq for ByteList {
    ghost laws = { nat_list_eq_equiv };
}

impl PartialOrd for ByteList {
    ghost partial_cmp = { λ xs ys. Some (slice_cmp nat_cmp xs ys) };

    ghost laws = { texts_po };

    fn partial_cmp(&self, other: &ByteList) -> Option<Ordering> {
        Some(self.cmp(other))
    }
}

impl Ord for ByteList {
    ghost cmp = { slice_cmp nat_cmp };

    ghost total = { nat_list_cmp_total };

    ghost matches_partial_cmp = { λ xs ys. refl };

    ghost matches_eq = { texts_ties };

    fn cmp(&self, other: &ByteList) -> Ordering {
        self.items.cmp(&other.items)
    }
}

/// Turns each byte into its complement.
fn complement(bytes: &mut [u8])
    ensures { bytes.new ≡ map (λ b. 255 - b) bytes.old }
{
    for byte in bytes.iter_mut() {
        *byte = 255 - *byte;
    }
}
