//! The flush of the shards of a table that is closed. A load calls it when all batches are done.
ghost use Rattle.std.specs.Prelude.{◌≡◌, ◌≤◌, ◌<◌, T, length, Err};
ghost use Rattle.std.specs.FinMap.Entries.{is_sorted};
ghost use Rattle.outside.specs.Causes.{Rose};
ghost use Rattle.key_types.specs.Columns.{columns_of};
ghost use Rattle.key_types.specs.Table.{string_cmp};
ghost use Rattle.shard_table.specs.Together.{shard_entries};
ghost use Rattle.flush_walk.specs.Flushed.{Flushes, all_given};
ghost use Rattle.flush_walk.specs.Growing.{NoneOf};
ghost use Rattle.flush_walk.specs.TableEntries.{AreTableEntries};

use crate::parts::part;
use crate::writer::TableWriter;
use bti_nodes::PackError;
use data_file::Counts;
use key_types::{ByteList, Schema};
use outside::Store;
use shard_table::FrozenTable;
use std::alloc::Global;

/// Writes the four files of a generation, of which none is there, from the entries of all shards, which ascend and are at
/// most a million. Answers how many partitions and rows they are.
///
/// Errors: `StoreFault` where the store failed, `NoMemory`.
pub fn flush<K: Store>(
    alloc: Global,
    table: &FrozenTable,
    schema: &Schema,
    generation: u32,
    store: &mut K,
) -> Result<Counts, PackError>
    requires some { 0 < length table.now }
    requires entries { AreTableEntries (columns_of schema.now) (shard_entries table.now) }
    requires ascend { T (is_sorted string_cmp (shard_entries table.now)) }
    requires few { length (shard_entries table.now) ≤ 1000000 }
    requires none { NoneOf generation (K.files store.old) }
    ensures written { Flushes (all_given generation (columns_of schema.now) (K.files store.old) (shard_entries table.now))
        (K.files store.new) result }
    ensures later { K.faults store.old ≤ K.faults store.new }
    ensures fault { result ≡ Err PackError.StoreFault → Rose (K.faults store.old) (K.faults store.new) }
{
    let mut writer = TableWriter::new(alloc, schema, generation)?;
    let mut cursor = table.cursor(alloc)?;
    let mut key = ByteList::new(alloc);
    let mut value = ByteList::new(alloc);
    'entries: while table.next_into(&mut cursor, &mut key, &mut value)? {
        let (partition, clustering) = part(schema, key.as_slice());
        writer.add(partition, clustering, value.as_slice(), store)?;
    }
    writer.finish(store)
}
