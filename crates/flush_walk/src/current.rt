//! What the writer of a table holds of the partition that is open, and where its blocks begin.
//!
//! Its buffers serve all partitions, one after the other.
ghost use Rattle.std.specs.Prelude.{◌≡◌, ◌+◌, ◌<◌, ◌^◌, Bool, true, false, ◌&&◌, ◌||◌, List, ℕ, [], OnOk, nat_eq};
ghost use Rattle.std.specs.Cmp.Lexicographic.{pointwise};
ghost use Rattle.table_files.specs.Blocks.{ends_block};
ghost use Rattle.flush_walk.specs.Current.{begins_block, current_of};

use key_types::{ByteList, NoMemory};
use std::alloc::Global;

/// A block ends with the first row whose end is so many bytes or more past the block's start.
const BLOCK_SIZE: u64 = 16_384;

/// The open partition: its string and its position in the data file, the clustering string of its last row, which is
/// empty before the first, the offset of its last block, and whether that isn't its first.
#[derive(Debug, Drop)]
pub struct CurrentPartition {
    pub is_open: bool,
    pub key: ByteList,
    pub position: u64,
    pub last: ByteList,
    pub start: u64,
    pub indexed: bool,
}

impl CurrentPartition {
    /// No partition.
    pub fn none(alloc: Global) -> CurrentPartition
        ensures { result.is_open ≡ false }
    {
        CurrentPartition {
            is_open: false,
            key: ByteList::new(alloc),
            position: 0,
            last: ByteList::new(alloc),
            start: 0,
            indexed: false,
        }
    }

    /// Whether it is the partition with this string.
    pub fn is(&self, partition: &[u8]) -> bool
        ensures { result ≡ (self.now.is_open && pointwise nat_eq self.now.key partition.now) }
    {
        self.is_open && self.key.as_slice() == partition
    }

    /// Whether a row behind this offset begins a block: one stands before it, and ends the last block.
    pub fn begins_block(&self, end: u64) -> bool
        requires { self.now.start < 2 ^ 60 }
        ensures { result ≡ begins_block self.now end }
    {
        !self.last.as_slice().is_empty() && self.start + BLOCK_SIZE <= end
    }

    /// A block begins at this offset.
    pub fn begin_block(&mut self, end: u64)
        ensures { self.new ≡ record self.old { start = end; indexed = true } }
    {
        self.start = end;
        self.indexed = true;
    }

    /// Opens the partition at a position, with its first entry.
    ///
    /// Errors: `NoMemory`, after which nothing is known of it.
    pub fn begin(
        &mut self,
        partition: &[u8],
        clustering: &[u8],
        position: u64,
    ) -> Result<(), NoMemory>
        ensures { OnOk result (self.new ≡ current_of partition.now clustering.now position) }
    {
        self.key.truncate(0);
        self.key.extend(partition)?;
        self.take_row(clustering)?;
        self.is_open = true;
        self.position = position;
        self.start = 0;
        self.indexed = false;
        Ok(())
    }

    /// Takes a row more.
    ///
    /// Errors: `NoMemory`, after which its last row is lost.
    pub fn take_row(&mut self, clustering: &[u8]) -> Result<(), NoMemory>
        ensures { OnOk result (self.new ≡ record self.old { last = clustering.now }) }
    {
        self.last.truncate(0);
        self.last.extend(clustering)
    }
}
