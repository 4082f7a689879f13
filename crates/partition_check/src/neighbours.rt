//! The string of a partition between its neighbours', which tell its path in the partition index. The check of the
//! index holds these of one partition.
ghost use Rattle.std.specs.Prelude.{◌≡◌, ◌≢◌, [], IfOk, IfSome};
ghost use Rattle.std.specs.Option.{option_copied};
ghost use Rattle.byte_order.specs.Strings.{Differ};
ghost use Rattle.partition_check.specs.Partitions.{beside, unique_path};

use byte_order::unique_len;
use key_types::{ByteList, KeyBytes, NoMemory};
use std::alloc::Global;

/// The string of a partition, and that of the partition before it, which is empty where there is none.
#[derive(Drop)]
pub struct Between {
    pub before: KeyBytes,
    pub key: KeyBytes,
}

/// The string, where it isn't empty.
fn there(string: &[u8]) -> Option<&[u8]>
    ensures same { option_copied result ≡ beside string.now }
    ensures some { IfSome result (λ other. (other.now ≡ string.now) × (string.now ≢ [])) }
{
    if string.is_empty() {
        return None;
    }
    Some(string)
}

/// The shortest prefix of a string that neither neighbour has, which are empty where there are none.
fn unique_path<'k>(before: &[u8], key: &'k [u8], next: &[u8]) -> &'k [u8]
    requires some { key.now ≢ [] }
    requires before { before.now ≢ [] → Differ before.now key.now }
    requires behind { next.now ≢ [] → Differ key.now next.now }
    ensures { result.now ≡ unique_path before.now key.now next.now }
{
    let (path, _) = key.split_at(unique_len(there(before), key, there(next)));
    path
}

impl Between {
    /// No partition.
    pub fn new(alloc: Global) -> Between
        ensures before { result.before ≡ [] }
        ensures key { result.key ≡ [] }
    {
        Between {
            before: ByteList::new(alloc),
            key: ByteList::new(alloc),
        }
    }

    /// Goes on to the next partition.
    pub fn go_on(&mut self, next: &[u8]) -> Result<(), NoMemory>
        ensures before { self.new.before ≡ self.old.key }
        ensures key { IfOk result (λ _. self.new.key ≡ next.now) }
    {
        std::mem::swap(&mut self.before, &mut self.key);
        self.key.truncate(0);
        self.key.extend(next)
    }

    /// The shortest prefix of the partition's string that neither neighbour has; `next` is empty where there is none.
    pub fn path(&self, next: &[u8]) -> &[u8]
        requires some { self.now.key ≢ [] }
        requires before { self.now.before ≢ [] → Differ self.now.before self.now.key }
        requires behind { next.now ≢ [] → Differ self.now.key next.now }
        ensures { result.now ≡ unique_path self.now.before self.now.key next.now }
    {
        unique_path(self.before.as_slice(), self.key.as_slice(), next)
    }
}
