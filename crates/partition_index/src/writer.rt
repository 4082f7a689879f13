//! The writer of a partition index: the flush gives it the partitions of a table in order.
ghost use Rattle.std.specs.Prelude.{◌≡◌, ◌≤◌, ◌<◌, ◌^◌, ◌-◌, ◌≤ℤ◌, ◌<ℤ◌, negsuc, pos, length, OnOk, Err};
ghost use Rattle.outside.specs.Causes.{Rose};
ghost use Rattle.outside.specs.Files.{Appends};
ghost use Rattle.partition_index.specs.File.{last_index_bytes};
ghost use Rattle.partition_index.specs.Writing.{AddsPartition, HasRoom, Indexing, TakesPartition, WritesIndex, WritesSome, no_partitions, numbered, with_partition};

use crate::ending::ending;
use crate::newest::Newest;
use crate::packing::{pack_all, pack_last};
use bti_nodes::PackError;
use key_types::{ByteList, NoMemory};
use outside::{FileId, Store};
use page_packer::Packer;
use std::alloc::Global;

/// Writes the index of partitions into a file of which nothing is there. It appends what is known to stand, and holds
/// the first and the last two strings. After an error no call may follow.
#[derive(Drop)]
pub struct PartitionWriter {
    alloc: Global,
    file: FileId,
    packer: Packer,
    first: ByteList,
    newest: Newest,
}

impl PartitionWriter {
    /// A writer of this file, of which nothing is there.
    pub fn new(alloc: Global, file: FileId) -> PartitionWriter
        ensures { WritesIndex result (no_partitions file) }
    {
        PartitionWriter {
            alloc,
            file,
            packer: Packer::new(alloc, file, 0),
            first: ByteList::new(alloc),
            newest: Newest::new(alloc),
        }
    }

    /// Adds the partition with this string of 1 to 1,024 bytes. The strings ascend, none begins with another, and they
    /// have together at most 2^30 bytes. The position is that of the partition's entry in the row index, or the
    /// complement of its position in the data file; seven bytes hold it.
    ///
    /// Errors: `StoreFault` where the store failed, `NoMemory`.
    pub fn add<K: Store>(
        &mut self,
        key: &[u8],
        position: i64,
        store: &mut K,
    ) -> Result<(), PackError>
        requires key { TakesPartition self.old key.now }
        requires some { 0 < length key.now }
        requires most { length key.now ≤ 1024 }
        requires low { negsuc (2 ^ 55 - 1) ≤ℤ position }
        requires high { position <ℤ pos (2 ^ 55) }
        ensures added { AddsPartition self.old self.new (K.files store.old) (K.files store.new) result
            (numbered key.now position) }
        ensures reads { K.reads store.new ≡ K.reads store.old }
        ensures later { K.faults store.old ≤ K.faults store.new }
        ensures fault { result ≡ Err PackError.StoreFault → Rose (K.faults store.old) (K.faults store.new) }
    {
        if self.newest.count == 0 {
            self.begin(key, position)?;
            return Ok(());
        }
        self.go_on(key, position, store)
    }

    /// Adds the first partition, which is held.
    fn begin(&mut self, key: &[u8], position: i64) -> Result<(), NoMemory>
        requires key { TakesPartition self.old key.now }
        requires first { self.old.newest.count ≡ 0 }
        requires some { 0 < length key.now }
        requires most { length key.now ≤ 1024 }
        requires low { negsuc (2 ^ 55 - 1) ≤ℤ position }
        requires high { position <ℤ pos (2 ^ 55) }
        ensures { OnOk result ((w : Indexing) → WritesIndex self.old w → HasRoom w (numbered key.now position)
            → WritesIndex self.new (with_partition w (numbered key.now position))) }
    {
        self.first.extend(key)?;
        self.newest.take(key, position)
    }

    /// Adds a partition behind others: the last of them is packed.
    fn go_on<K: Store>(&mut self, key: &[u8], position: i64, store: &mut K) -> Result<(), PackError>
        requires key { TakesPartition self.old key.now }
        requires behind { 0 < self.old.newest.count }
        requires some { 0 < length key.now }
        requires most { length key.now ≤ 1024 }
        requires low { negsuc (2 ^ 55 - 1) ≤ℤ position }
        requires high { position <ℤ pos (2 ^ 55) }
        ensures added { AddsPartition self.old self.new (K.files store.old) (K.files store.new) result
            (numbered key.now position) }
        ensures reads { K.reads store.new ≡ K.reads store.old }
        ensures later { K.faults store.old ≤ K.faults store.new }
        ensures fault { result ≡ Err PackError.StoreFault → Rose (K.faults store.old) (K.faults store.new) }
    {
        pack_last(&mut self.packer, &self.newest, Some(key), store)?;
        self.newest.take(key, position)?;
        Ok(())
    }

    /// Ends the file: the rest of the trie, the first and the last string, and the footer. Without partitions the file
    /// has a footer and two empty strings. After an error a prefix of that rest was appended.
    ///
    /// Errors: `StoreFault` where the store failed, `NoMemory`.
    pub fn finish<K: Store>(self, store: &mut K) -> Result<(), PackError>
        requires { WritesSome self }
        ensures written { (w : Indexing) → WritesIndex self w
            → Appends (K.files store.old) (K.files store.new) w.file result (last_index_bytes w.partitions) }
        ensures reads { K.reads store.new ≡ K.reads store.old }
        ensures later { K.faults store.old ≤ K.faults store.new }
        ensures fault { result ≡ Err PackError.StoreFault → Rose (K.faults store.old) (K.faults store.new) }
    {
        let PartitionWriter {
            alloc,
            file,
            packer,
            first,
            newest,
        } = self;
        let trie = pack_all(packer, &newest, store)?;
        let end = ending(
            alloc,
            first.as_slice(),
            newest.last.as_slice(),
            trie,
            newest.count,
        )?;
        store.append(file, end.as_slice())?;
        Ok(())
    }
}
