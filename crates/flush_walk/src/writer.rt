//! The writer of a table: the flush gives it the entries in order.
ghost use Rattle.std.specs.Prelude.{◌≡◌, ◌≤◌, ◌<◌, ◌+◌, ◌++◌, ◌∷◌, ◌^◌, ℕ, true, [], length, Option, OnOk, IfOk, Err};
ghost use Rattle.outside.specs.Causes.{Rose};
ghost use Rattle.outside.specs.Files.{Files};
ghost use Rattle.key_types.specs.Columns.{columns_of};
ghost use Rattle.std.specs.declared.cmp.Ordering.TheVariants.{Less};
ghost use Rattle.key_types.specs.Table.{string_cmp};
ghost use Rattle.data_file.specs.Listing.{Partition};
ghost use Rattle.row_index.specs.Entries.{AreBlocks};
ghost use Rattle.row_index.specs.Writing.{GoesBehind, TakesBlock, block_of};
ghost use Rattle.table_files.specs.Standing.{AreOfTable};
ghost use Rattle.flush_walk.specs.Current.{begins_block, blocks_next, number_turned, rows_turned, with_block_at, with_blocks};
ghost use Rattle.flush_walk.specs.Given.{Flushing, begun_with, entry_given, nothing_given, opened, partitions_given, turned, with_row};
ghost use Rattle.flush_walk.specs.Growing.{Grows, Growing, Moves, NoneOf};
ghost use Rattle.flush_walk.specs.Writing.{AddsEntryTo, FinishesTable, Goes, TakesNext, WritesTable};

use crate::current::CurrentPartition;
use crate::growing::GrowingFiles;
use crate::parts::row_at;
use bti_nodes::PackError;
use data_file::Counts;
use key_types::{ByteList, NoMemory, Schema, ValueType};
use outside::Store;
use std::alloc::Global;
use table_files::{schema_file_text, schema_id};

/// Writes the four files of a generation of which none is there. It appends to the data file and the indexes while entries
/// come, and the text of the schema last. After an error no call may follow.
#[derive(Drop)]
pub struct TableWriter {
    generation: u32,
    static_value: Option<ValueType>,
    text: ByteList,
    files: GrowingFiles,
    current: CurrentPartition,
    counts: Counts,
}

impl TableWriter {
    /// A writer of the files of a generation, of which none is there.
    ///
    /// Errors: `NoMemory`.
    pub fn new(alloc: Global, schema: &Schema, generation: u32) -> Result<TableWriter, NoMemory>
        ensures { IfOk result (λ writer. (files : Option Files) → NoneOf generation files
            → WritesTable writer (nothing_given generation (columns_of schema.now) files) files) }
    {
        let text = schema_file_text(alloc, schema)?;
        Ok(TableWriter {
            generation,
            static_value: schema.static_value,
            text,
            files: GrowingFiles::new(alloc, generation),
            current: CurrentPartition::none(alloc),
            counts: Counts {
                partitions: 0,
                rows: 0,
            },
        })
    }

    /// Adds an entry of the table, above those before it: the string of its partition, that of its row within it, which is
    /// empty for a static value, and the value. There are at most a million entries.
    ///
    /// Errors: `StoreFault` where the store failed, `NoMemory`.
    pub fn add<K: Store>(
        &mut self,
        partition: &[u8],
        clustering: &[u8],
        value: &[u8],
        store: &mut K,
    ) -> Result<(), PackError>
        requires { TakesNext self.old (entry_given partition.now clustering.now value.now) (K.files store.old) }
        ensures added { AddsEntryTo self.old self.new (K.files store.old) (K.files store.new) result
            (entry_given partition.now clustering.now value.now) }
        ensures reads { K.reads store.new ≡ K.reads store.old }
        ensures later { K.faults store.old ≤ K.faults store.new }
        ensures fault { result ≡ Err PackError.StoreFault → Rose (K.faults store.old) (K.faults store.new) }
    {
        if self.current.is(partition) {
            return self.go_on(clustering, value, store);
        }
        self.close(store)?;
        self.begin(partition, clustering, value, store)
    }

    /// Adds a row to the open partition.
    fn go_on<K: Store>(
        &mut self,
        clustering: &[u8],
        value: &[u8],
        store: &mut K,
    ) -> Result<(), PackError>
        requires given { (v : Flushing) × (p : Partition) × WritesTable self.old (opened v p) (K.files store.old)
            × AreOfTable v.columns (v.closed ++ with_row p clustering.now value.now ∷ []) }
        requires some { 0 < length clustering.now }
        requires clustering { length clustering.now ≤ 1024 }
        requires value { length value.now < 2 ^ 16 }
        ensures gone { (v : Flushing) (p : Partition) → WritesTable self.old (opened v p) (K.files store.old)
            → AreOfTable v.columns (v.closed ++ with_row p clustering.now value.now ∷ [])
            → Goes result self.new (opened v (with_row p clustering.now value.now)) (K.files store.new) }
        ensures reads { K.reads store.new ≡ K.reads store.old }
        ensures later { K.faults store.old ≤ K.faults store.new }
        ensures fault { result ≡ Err PackError.StoreFault → Rose (K.faults store.old) (K.faults store.new) }
    {
        let end = self.files.position() - self.current.position;
        self.begin_block(clustering, end, store)?;
        self.files.row(clustering, value, store)?;
        self.current.take_row(clustering)?;
        self.counts.rows += 1;
        Ok(())
    }

    /// Begins a block of the open partition with the row of this clustering, where the last one ends at this offset.
    fn begin_block<K: Store>(
        &mut self,
        clustering: &[u8],
        end: u64,
        store: &mut K,
    ) -> Result<(), PackError>
        requires start { self.old.current.start < 2 ^ 60 }
        requires block { begins_block self.old.current end ≡ true
            → TakesBlock self.old.files.rows (block_of self.old.current.last clustering.now end) }
        requires above { begins_block self.old.current end ≡ true → string_cmp self.old.current.last clustering.now ≡ Less }
        requires some { 0 < end }
        requires few { end < 2 ^ 56 }
        ensures moved { (t : Growing) → Grows self.old.files t (K.files store.old)
            → (begins_block self.old.current end ≡ true
            → GoesBehind self.old.files.rows t.rows (block_of self.old.current.last clustering.now end)
            × AreBlocks (t.rows.begun ++ block_of self.old.current.last clustering.now end ∷ []))
            → Moves result self.new.files (with_blocks t (blocks_next self.old.current clustering.now end)) (K.files store.new) }
        ensures kept { OnOk result (self.new ≡ record self.old { files = self.new.files; current = with_block_at self.old.current end }) }
        ensures listing { OnOk result (self.new.files.listing ≡ self.old.files.listing) }
        ensures reads { K.reads store.new ≡ K.reads store.old }
        ensures later { K.faults store.old ≤ K.faults store.new }
        ensures fault { result ≡ Err PackError.StoreFault → Rose (K.faults store.old) (K.faults store.new) }
    {
        if !self.current.begins_block(end) {
            return Ok(());
        }
        self.files
            .add_block(clustering, self.current.last.as_slice(), end, store)?;
        self.current.begin_block(end);
        Ok(())
    }

    /// Begins a partition with its first entry, where none is open.
    fn begin<K: Store>(
        &mut self,
        partition: &[u8],
        clustering: &[u8],
        value: &[u8],
        store: &mut K,
    ) -> Result<(), PackError>
        requires given { (w : Flushing) × WritesTable self.old (turned w) (K.files store.old)
            × AreOfTable w.columns ((turned w).closed ++ begun_with (entry_given partition.now clustering.now value.now) ∷ []) }
        requires key { length partition.now ≤ 1024 }
        requires clustering { length clustering.now ≤ 1024 }
        requires value { length value.now < 2 ^ 16 }
        ensures gone { (w : Flushing) → WritesTable self.old (turned w) (K.files store.old)
            → AreOfTable w.columns ((turned w).closed ++ begun_with (entry_given partition.now clustering.now value.now) ∷ [])
            → Goes result self.new (opened (turned w) (begun_with (entry_given partition.now clustering.now value.now))) (K.files store.new) }
        ensures reads { K.reads store.new ≡ K.reads store.old }
        ensures later { K.faults store.old ≤ K.faults store.new }
        ensures fault { result ≡ Err PackError.StoreFault → Rose (K.faults store.old) (K.faults store.new) }
    {
        let at = self
            .files
            .begin(self.static_value, partition, clustering, value, store)?;
        self.current.begin(partition, clustering, at)?;
        self.counts.partitions += 1;
        self.counts.rows += row_at(clustering);
        Ok(())
    }

    /// Ends the open partition, where there is one.
    fn close<K: Store>(&mut self, store: &mut K) -> Result<(), PackError>
        requires { (w : Flushing) × WritesTable self.old w (K.files store.old) }
        ensures gone { (w : Flushing) → WritesTable self.old w (K.files store.old) → Goes result self.new (turned w) (K.files store.new) }
        ensures reads { K.reads store.new ≡ K.reads store.old }
        ensures later { K.faults store.old ≤ K.faults store.new }
        ensures fault { result ≡ Err PackError.StoreFault → Rose (K.faults store.old) (K.faults store.new) }
    {
        if !self.current.is_open {
            return Ok(());
        }
        let number = self.end_rows(store)?;
        self.files
            .add_partition(self.current.key.as_slice(), number, store)?;
        self.files.close_partition(store)?;
        self.current.is_open = false;
        Ok(())
    }

    /// Ends the open partition in the row index, where it has two or more blocks. Answers its number in the partition
    /// index: the position of its entry there, or the complement of its position in the data file.
    fn end_rows<K: Store>(&mut self, store: &mut K) -> Result<i64, PackError>
        requires { (v : Flushing) × (p : Partition) × WritesTable self.old (opened v p) (K.files store.old) }
        ensures moved { (v : Flushing) (p : Partition) → WritesTable self.old (opened v p) (K.files store.old)
            → Moves result self.new.files (rows_turned v p) (K.files store.new) }
        ensures number { IfOk result (λ number. (v : Flushing) (p : Partition) → WritesTable self.old (opened v p) (K.files store.old)
            → number ≡ number_turned v p) }
        ensures kept { OnOk result (self.new ≡ record self.old { files = self.new.files }) }
        ensures listing { OnOk result (self.new.files.listing ≡ self.old.files.listing) }
        ensures partitions { OnOk result (self.new.files.partitions ≡ self.old.files.partitions) }
        ensures reads { K.reads store.new ≡ K.reads store.old }
        ensures later { K.faults store.old ≤ K.faults store.new }
        ensures fault { result ≡ Err PackError.StoreFault → Rose (K.faults store.old) (K.faults store.new) }
    {
        if !self.current.indexed {
            return Ok(-1 - self.current.position as i64);
        }
        let at = self
            .files
            .finish_rows(self.current.key.as_slice(), self.current.position, store)?;
        Ok(at as i64)
    }

    /// Ends the table: the files are whole, and Schema.txt, which is appended last, says so. Answers how many partitions and
    /// rows the table has.
    ///
    /// Errors: `StoreFault` where the store failed, `NoMemory`.
    pub fn finish<K: Store>(self, store: &mut K) -> Result<Counts, PackError>
        requires { (w : Flushing) × WritesTable self w (K.files store.old) }
        ensures finished { FinishesTable self (K.files store.old) (K.files store.new) result }
        ensures reads { K.reads store.new ≡ K.reads store.old }
        ensures later { K.faults store.old ≤ K.faults store.new }
        ensures fault { result ≡ Err PackError.StoreFault → Rose (K.faults store.old) (K.faults store.new) }
    {
        let mut writer = self;
        writer.close(store)?;
        let TableWriter {
            generation,
            text,
            files,
            counts,
            ..
        } = writer;
        files.finish(store)?;
        store.append(schema_id(generation), text.as_slice())?;
        Ok(counts)
    }
}
