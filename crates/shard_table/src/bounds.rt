//! The bounds between shards. A table is made where they ascend.

ghost use Rattle.std.specs.Prelude.{◌≡◌, length};
ghost use Rattle.shard_table.specs.Shards.{IsFoundUnordered, shard_index};

use byte_order::compare_bytes;
use key_types::{KeyBytes, ListOf};

/// Strings of keys.
pub type KeyList = ListOf<KeyBytes>;

/// The first bound that isn't above the one before it.
pub(crate) fn first_unordered(bounds: &KeyList) -> Option<usize>
    ensures { IsFoundUnordered bounds.now result }
{
    let strings = bounds.as_slice();
    for i in 1..strings.len() {
        if !compare_bytes(strings[i - 1].as_slice(), strings[i].as_slice()).is_lt() {
            return Some(i);
        }
    }
    None
}

/// How many bounds aren't above the string.
pub(crate) fn index_of(bounds: &KeyList, partition: &[u8]) -> usize
    ensures { result ≡ shard_index bounds.now partition.now }
{
    bounds
        .as_slice()
        .iter()
        .filter(|bound| compare_bytes(bound.as_slice(), partition).is_le())
        .count()
}
