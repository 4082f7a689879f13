//! The three files of a table that grow while entries come. The writer of a table gives each what is its.
ghost use Rattle.std.specs.Prelude.{◌≡◌, ◌≤◌, ◌<◌, ◌+◌, ◌-◌, ◌++◌, ◌∷◌, ◌^◌, ◌≤ℤ◌, ◌<ℤ◌, ℕ, negsuc, pos, [], length, Option, OnOk, IfOk, IfSome, Err, option_copied};
ghost use Rattle.outside.specs.Causes.{Rose};
ghost use Rattle.outside.specs.Files.{Files};
ghost use Rattle.std.specs.declared.cmp.Ordering.TheVariants.{Less};
ghost use Rattle.key_types.specs.Table.{string_cmp};
ghost use Rattle.data_file.specs.Listing.{end_bytes, head_bytes, rows_bytes, static_part_bytes};
ghost use Rattle.partition_index.specs.Entries.{AreNumbered};
ghost use Rattle.partition_index.specs.Writing.{HasRoom, TakesPartition, WritesSome, numbered, with_partition};
ghost use Rattle.row_index.specs.Entries.{AreBlocks};
ghost use Rattle.row_index.specs.Writing.{GoesBehind, HasBlocks, HasNoBlocks, TakesBlock, block_of, begun_entry_at, with_block, with_finished};
ghost use Rattle.flush_walk.specs.Given.{begun_with, entry_given, opened_bytes, rows_given, static_given};
ghost use Rattle.flush_walk.specs.Growing.{Ends, Grows, Growing, Moves, NoneOf, nothing_grown, with_bytes};

use bti_nodes::PackError;
use data_file::DataWriter;
use key_types::ValueType;
use outside::Store;
use partition_index::PartitionWriter;
use row_index::RowWriter;
use std::alloc::Global;
use table_files::{data_id, partitions_id, rows_id};

/// The writers of the data file and of the two indexes. After an error no call may follow.
#[derive(Drop)]
pub struct GrowingFiles {
    pub listing: DataWriter,
    pub rows: RowWriter,
    pub partitions: PartitionWriter,
}

impl GrowingFiles {
    /// The writers of a generation of which no file is there.
    pub fn new(alloc: Global, generation: u32) -> GrowingFiles
        ensures { (files : Option Files) → NoneOf generation files → Grows result (nothing_grown generation files) files }
    {
        GrowingFiles {
            listing: DataWriter::new(alloc, data_id(generation)),
            rows: RowWriter::new(alloc, rows_id(generation)),
            partitions: PartitionWriter::new(alloc, partitions_id(generation)),
        }
    }

    /// The position behind all that was written to the data file.
    pub fn position(&self) -> u64
        ensures { result ≡ self.now.listing.position }
    {
        self.listing.position()
    }

    /// Begins the partition with this string in the data file, and answers its position.
    pub fn open_partition<K: Store>(
        &mut self,
        partition: &[u8],
        store: &mut K,
    ) -> Result<u64, PackError>
        requires key { length partition.now ≤ 1024 }
        requires place { self.old.listing.position < 2 ^ 60 }
        ensures at { IfOk result (λ at. at ≡ self.old.listing.position) }
        ensures moved { (t : Growing) → Grows self.old t (K.files store.old)
            → Moves result self.new (with_bytes t (head_bytes partition.now)) (K.files store.new) }
        ensures position { OnOk result (self.new.listing.position ≡ self.old.listing.position + length (head_bytes partition.now)) }
        ensures reads { K.reads store.new ≡ K.reads store.old }
        ensures later { K.faults store.old ≤ K.faults store.new }
        ensures fault { result ≡ Err PackError.StoreFault → Rose (K.faults store.old) (K.faults store.new) }
    {
        self.listing.open_partition(partition, store)
    }

    /// Writes the static part of the partition that was just begun, where the table has a static type.
    pub fn static_part<K: Store>(
        &mut self,
        static_value: Option<ValueType>,
        value: Option<&[u8]>,
        store: &mut K,
    ) -> Result<(), PackError>
        requires value { IfSome value (λ v. length v.now < 2 ^ 16) }
        requires place { self.old.listing.position < 2 ^ 60 }
        ensures moved { (t : Growing) → Grows self.old t (K.files store.old)
            → Moves result self.new (with_bytes t (static_part_bytes static_value (option_copied value.entry))) (K.files store.new) }
        ensures position { OnOk result (self.new.listing.position
            ≡ self.old.listing.position + length (static_part_bytes static_value (option_copied value.entry))) }
        ensures reads { K.reads store.new ≡ K.reads store.old }
        ensures later { K.faults store.old ≤ K.faults store.new }
        ensures fault { result ≡ Err PackError.StoreFault → Rose (K.faults store.old) (K.faults store.new) }
    {
        if static_value.is_some() {
            self.listing.static_part(value, store)?;
        }
        Ok(())
    }

    /// Writes the row of an entry of the partition that was begun last, unless it is a static value.
    pub fn row<K: Store>(
        &mut self,
        clustering: &[u8],
        value: &[u8],
        store: &mut K,
    ) -> Result<(), PackError>
        requires clustering { length clustering.now ≤ 1024 }
        requires value { length value.now < 2 ^ 16 }
        requires place { self.old.listing.position < 2 ^ 60 }
        ensures moved { (t : Growing) → Grows self.old t (K.files store.old)
            → Moves result self.new (with_bytes t (rows_bytes (rows_given clustering.now value.now))) (K.files store.new) }
        ensures reads { K.reads store.new ≡ K.reads store.old }
        ensures later { K.faults store.old ≤ K.faults store.new }
        ensures fault { result ≡ Err PackError.StoreFault → Rose (K.faults store.old) (K.faults store.new) }
    {
        if !clustering.is_empty() {
            self.listing.row(clustering, value, store)?;
        }
        Ok(())
    }

    /// Ends the partition that was begun last in the data file.
    pub fn close_partition<K: Store>(&mut self, store: &mut K) -> Result<(), PackError>
        requires { self.old.listing.position < 2 ^ 60 }
        ensures moved { (t : Growing) → Grows self.old t (K.files store.old)
            → Moves result self.new (with_bytes t end_bytes) (K.files store.new) }
        ensures reads { K.reads store.new ≡ K.reads store.old }
        ensures later { K.faults store.old ≤ K.faults store.new }
        ensures fault { result ≡ Err PackError.StoreFault → Rose (K.faults store.old) (K.faults store.new) }
    {
        self.listing.close_partition(store)
    }

    /// Adds a block to the row index.
    pub fn add_block<K: Store>(
        &mut self,
        first: &[u8],
        last_before: &[u8],
        offset: u64,
        store: &mut K,
    ) -> Result<(), PackError>
        requires block { TakesBlock self.old.rows (block_of last_before.now first.now offset) }
        requires above { string_cmp last_before.now first.now ≡ Less }
        requires some { 0 < offset }
        requires few { offset < 2 ^ 56 }
        ensures moved { (t : Growing) → Grows self.old t (K.files store.old)
            → GoesBehind self.old.rows t.rows (block_of last_before.now first.now offset)
            → AreBlocks (t.rows.begun ++ block_of last_before.now first.now offset ∷ [])
            → Moves result self.new (record t { rows = with_block t.rows (block_of last_before.now first.now offset) }) (K.files store.new) }
        ensures kept { OnOk result (self.new.listing ≡ self.old.listing) }
        ensures reads { K.reads store.new ≡ K.reads store.old }
        ensures later { K.faults store.old ≤ K.faults store.new }
        ensures fault { result ≡ Err PackError.StoreFault → Rose (K.faults store.old) (K.faults store.new) }
    {
        self.rows.add(first, last_before, offset, store)
    }

    /// Ends a partition in the row index, and answers where its entry stands.
    pub fn finish_rows<K: Store>(
        &mut self,
        partition: &[u8],
        data_at: u64,
        store: &mut K,
    ) -> Result<u64, PackError>
        requires string { length partition.now ≤ 1024 }
        requires some { HasBlocks self.old.rows }
        ensures moved { (t : Growing) → Grows self.old t (K.files store.old)
            → Moves result self.new (record t { rows = with_finished t.rows partition.now data_at }) (K.files store.new) }
        ensures at { IfOk result (λ at. (t : Growing) → Grows self.old t (K.files store.old) → at ≡ begun_entry_at t.rows) }
        ensures short { IfOk result (λ at. at < 2 ^ 41) }
        ensures kept { OnOk result (self.new.listing ≡ self.old.listing) }
        ensures others { OnOk result (self.new.partitions ≡ self.old.partitions) }
        ensures reads { K.reads store.new ≡ K.reads store.old }
        ensures later { K.faults store.old ≤ K.faults store.new }
        ensures fault { result ≡ Err PackError.StoreFault → Rose (K.faults store.old) (K.faults store.new) }
    {
        self.rows.finish_partition(partition, data_at, store)
    }

    /// Adds a partition to the partition index.
    pub fn add_partition<K: Store>(
        &mut self,
        partition: &[u8],
        number: i64,
        store: &mut K,
    ) -> Result<(), PackError>
        requires key { TakesPartition self.old.partitions partition.now }
        requires some { 0 < length partition.now }
        requires most { length partition.now ≤ 1024 }
        requires low { negsuc (2 ^ 55 - 1) ≤ℤ number }
        requires high { number <ℤ pos (2 ^ 55) }
        ensures moved { (t : Growing) → Grows self.old t (K.files store.old) → HasRoom t.index (numbered partition.now number)
            → AreNumbered (t.index.partitions ++ numbered partition.now number ∷ [])
            → Moves result self.new (record t { index = with_partition t.index (numbered partition.now number) }) (K.files store.new) }
        ensures kept { OnOk result (self.new.listing ≡ self.old.listing) }
        ensures reads { K.reads store.new ≡ K.reads store.old }
        ensures later { K.faults store.old ≤ K.faults store.new }
        ensures fault { result ≡ Err PackError.StoreFault → Rose (K.faults store.old) (K.faults store.new) }
    {
        self.partitions.add(partition, number, store)
    }

    /// Begins a partition with its first entry in the data file, and answers its position.
    pub fn begin<K: Store>(
        &mut self,
        static_value: Option<ValueType>,
        partition: &[u8],
        clustering: &[u8],
        value: &[u8],
        store: &mut K,
    ) -> Result<u64, PackError>
        requires key { length partition.now ≤ 1024 }
        requires clustering { length clustering.now ≤ 1024 }
        requires value { length value.now < 2 ^ 16 }
        requires place { self.old.listing.position < 2 ^ 59 }
        ensures at { IfOk result (λ at. at ≡ self.old.listing.position) }
        ensures moved { (t : Growing) → Grows self.old t (K.files store.old)
            → Moves result self.new (with_bytes t (opened_bytes static_value
            (begun_with (entry_given partition.now clustering.now value.now)))) (K.files store.new) }
        ensures reads { K.reads store.new ≡ K.reads store.old }
        ensures later { K.faults store.old ≤ K.faults store.new }
        ensures fault { result ≡ Err PackError.StoreFault → Rose (K.faults store.old) (K.faults store.new) }
    {
        let at = self.open_partition(partition, store)?;
        self.static_part(static_value, static_given(clustering, value), store)?;
        self.row(clustering, value, store)?;
        Ok(at)
    }

    /// Ends the files, behind a partition that was ended or of none. It makes the files also where nothing was written.
    pub fn finish<K: Store>(self, store: &mut K) -> Result<(), PackError>
        requires rows { HasNoBlocks self.rows }
        requires partitions { WritesSome self.partitions }
        ensures ended { (t : Growing) → Grows self t (K.files store.old) → t.rows.begun ≡ [] → Ends result t (K.files store.new) }
        ensures reads { K.reads store.new ≡ K.reads store.old }
        ensures later { K.faults store.old ≤ K.faults store.new }
        ensures fault { result ≡ Err PackError.StoreFault → Rose (K.faults store.old) (K.faults store.new) }
    {
        let GrowingFiles {
            listing,
            rows,
            partitions,
        } = self;
        listing.finish(store)?;
        rows.finish(store)?;
        partitions.finish(store)
    }
}

/// The static value of an entry, unless it is of a row.
fn static_given<'v>(clustering: &[u8], value: &'v [u8]) -> Option<&'v [u8]>
    ensures given { option_copied result ≡ static_given clustering.now value.now }
    ensures same { IfSome result (λ v. v.now ≡ value.now) }
{
    if clustering.is_empty() {
        Some(value)
    } else {
        None
    }
}
