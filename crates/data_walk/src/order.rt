//! The order of keys, where blocks begin, and which partitions may be empty. The walk over Data.db asks these.
ghost use Rattle.std.specs.Prelude.{◌≡◌, ◌↔◌, ◌≤◌, IfErr, IfOk, IsTrue};
ghost use Rattle.std.specs.declared.cmp.Ordering.TheVariants.{Less};
ghost use Rattle.key_types.specs.Table.{string_cmp};
ghost use Rattle.data_file.specs.declared.reading.DataError.TheVariants.{NoMemory};
ghost use Rattle.data_walk.specs.declared.refusal.Refusal.TheVariants.{Unread};
ghost use Rattle.data_walk.specs.DataWalk.{begins_block, HasEntry};

use crate::refusal::Refusal;
use byte_order::compare_bytes;
use key_types::KeyBytes;
use std::cmp::Ordering;

/// A block ends with the first row that ends so many bytes or more past the block's start.
const BLOCK: u64 = 16_384;

/// Whether a row that stands at a place begins a block, behind a row of this string in a block from `block` on. The
/// first row of a partition, which has the empty string before it, begins none.
pub fn begins_block(row: &[u8], block: u64, at: u64) -> bool
    requires { block ≤ at }
    ensures { result ≡ begins_block row.now block at }
{
    !row.is_empty() && at - block >= BLOCK
}

/// Whether a string is above the one before it.
pub fn ascends(before: &[u8], next: &[u8]) -> bool
    ensures { IsTrue result ↔ string_cmp before.now next.now ≡ Less }
{
    compare_bytes(before, next) == Ordering::Less
}

/// Whether a partition has a static value or a row.
pub fn has_entry(has_static: bool, rows: u64) -> bool
    ensures { IsTrue result ↔ HasEntry has_static rows }
{
    has_static || rows > 0
}

/// Puts a string into the room of another one.
pub fn replace(held: &mut KeyBytes, string: &[u8]) -> Result<(), Refusal>
    ensures ok { IfOk result (λ _. held.new ≡ string.now) }
    ensures memory { IfErr result (λ e. e ≡ Unread NoMemory) }
{
    held.truncate(0);
    held.extend(string)?;
    Ok(())
}
