//! The writer of a row index: the flush gives it the blocks of each partition of two or more, in order.
ghost use Rattle.std.specs.Prelude.{◌≡◌, ◌≤◌, ◌<◌, ◌^◌, [], length, IfOk, OnErr, OnOk, Err};
ghost use Rattle.outside.specs.Causes.{Rose};
ghost use Rattle.outside.specs.Files.{Appends};
ghost use Rattle.std.specs.declared.cmp.Ordering.TheVariants.{Less};
ghost use Rattle.key_types.specs.Table.{string_cmp};
ghost use Rattle.row_index.specs.Writing.{AddsBlock, HasBlocks, HasNoBlocks, RowIndexing, TakesBlock, WritesRowIndex};
ghost use Rattle.row_index.specs.Writing.{block_of, last_row_bytes, no_rows, begun_entry_at, with_finished};

use crate::entry::entry;
use bti_nodes::{PackError, unsigned_payload};
use byte_order::separator_len;
use outside::{FileId, Store};
use page_packer::Packer;
use std::alloc::Global;
use std::mem;

/// Writes the row index of a table into a file of which nothing is there. It appends what is known to stand. After an
/// error no call may follow.
#[derive(Drop)]
pub struct RowWriter {
    alloc: Global,
    file: FileId,
    packer: Packer,
    blocks: u32,
}

impl RowWriter {
    /// A writer of this file, of which nothing is there.
    pub fn new(alloc: Global, file: FileId) -> RowWriter
        ensures { WritesRowIndex result (no_rows file) }
    {
        RowWriter {
            alloc,
            file,
            packer: Packer::new(alloc, file, 0),
            blocks: 0,
        }
    }

    /// Adds a block of a partition, which is not its first: the clustering string of its first row, that of the row
    /// before it, and its offset in bytes from the partition's position.
    ///
    /// Errors: `StoreFault` where the store failed, `NoMemory`.
    pub fn add<K: Store>(
        &mut self,
        first: &[u8],
        last_before: &[u8],
        offset: u64,
        store: &mut K,
    ) -> Result<(), PackError>
        requires block { TakesBlock self.old (block_of last_before.now first.now offset) }
        requires above { string_cmp last_before.now first.now ≡ Less }
        requires some { 0 < offset }
        requires few { offset < 2 ^ 56 }
        ensures added { AddsBlock self.old self.new (K.files store.old) (K.files store.new) result
            (block_of last_before.now first.now offset) }
        ensures reads { K.reads store.new ≡ K.reads store.old }
        ensures later { K.faults store.old ≤ K.faults store.new }
        ensures fault { result ≡ Err PackError.StoreFault → Rose (K.faults store.old) (K.faults store.new) }
    {
        let separator = separator_len(last_before, first);
        self.packer
            .add(&first[..separator], unsigned_payload(offset), store)?;
        self.blocks += 1;
        Ok(())
    }

    /// Ends the partition whose blocks were added, of which there is at least one: the rest of its trie, and its entry,
    /// whose position it answers; six bytes hold it. After an error a prefix of that was appended.
    ///
    /// Errors: `StoreFault` where the store failed, `NoMemory`.
    pub fn finish_partition<K: Store>(
        &mut self,
        partition: &[u8],
        data_at: u64,
        store: &mut K,
    ) -> Result<u64, PackError>
        requires string { length partition.now ≤ 1024 }
        requires some { HasBlocks self.old }
        ensures done { OnOk result ((w : RowIndexing) → WritesRowIndex self.old w
            → WritesRowIndex self.new (with_finished w partition.now data_at)) }
        ensures at { IfOk result (λ at. (w : RowIndexing) → WritesRowIndex self.old w → at ≡ begun_entry_at w) }
        ensures short { IfOk result (λ at. at < 2 ^ 41) }
        ensures written { (w : RowIndexing) → WritesRowIndex self.old w
            → Appends (K.files store.old) (K.files store.new) w.file result (last_row_bytes w partition.now data_at) }
        ensures reads { K.reads store.new ≡ K.reads store.old }
        ensures later { K.faults store.old ≤ K.faults store.new }
        ensures fault { result ≡ Err PackError.StoreFault → Rose (K.faults store.old) (K.faults store.new) }
    {
        let empty = Packer::new(self.alloc, self.file, 0);
        let trie = mem::replace(&mut self.packer, empty).finish(store)?;
        let entry = entry(self.alloc, partition, data_at, trie.root, self.blocks + 1)?;
        store.append(self.file, entry.as_slice())?;
        self.packer = Packer::new(self.alloc, self.file, trie.end + entry.len() as u64);
        self.blocks = 0;
        Ok(trie.end)
    }

    /// Ends the file, behind a partition that was ended or of none. It makes the file also where nothing was appended.
    ///
    /// Errors: `StoreFault` where the store failed. It takes no memory.
    pub fn finish<K: Store>(self, store: &mut K) -> Result<(), PackError>
        requires { HasNoBlocks self }
        ensures written { (w : RowIndexing) → WritesRowIndex self w
            → Appends (K.files store.old) (K.files store.new) w.file result [] }
        ensures reads { K.reads store.new ≡ K.reads store.old }
        ensures later { K.faults store.old ≤ K.faults store.new }
        ensures fault { OnErr result (Rose (K.faults store.old) (K.faults store.new)) }
    {
        store.append(self.file, &[])?;
        Ok(())
    }
}
