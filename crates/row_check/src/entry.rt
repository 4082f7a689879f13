//! The entry of one partition of two or more blocks in Rows.db. The check of entries reads each here.
ghost use Rattle.std.specs.Prelude.{◌≡◌, ◌≤◌, ◌<◌, ◌^◌, Err, IfSome, IsNone};
ghost use Rattle.outside.specs.Causes.{Rose};
ghost use Rattle.outside.specs.Files.{bytes_of};
ghost use Rattle.key_types.specs.Columns.{columns_of};
ghost use Rattle.page_cache.specs.Pages.{Honest};
ghost use Rattle.data_file.specs.declared.reading.DataError.TheVariants.{StoreFault};
ghost use Rattle.index_files.specs.Entries.{NoEntry};
ghost use Rattle.table_files.specs.Names.{rows_id};
ghost use Rattle.data_walk.specs.declared.refusal.Refusal.TheVariants.{Unread};
ghost use Rattle.row_check.specs.Entries.{ComparesEntry, FindsEntry, SpellsEntry};

use bti_nodes::Cause;
use data_walk::{Clash, PartitionSum, Refusal, clash_at};
use index_files::{EntryNumbers, EntryParts, entry_in, read_span};
use key_types::Schema;
use outside::{Part, Store};
use page_cache::PageCache;
use path_check::{damage_at, number_clash};
use std::alloc::Global;
use table_files::rows_id;

/// How many bytes an entry has at most.
const LONGEST_ENTRY: usize = 1046;

/// The entry as it is written with which the bytes begin, which stand at that position of Rows.db; `None` exactly where
/// none begins there.
fn written_entry<'b>(schema: &Schema, bytes: &'b [u8], at: u64) -> Option<EntryParts<'b>>
    ensures some { IfSome result (λ e. SpellsEntry (columns_of schema.now) bytes.now at e.partition.now e.numbers) }
    ensures none { IsNone result → NoEntry (columns_of schema.now) bytes.now at }
{
    entry_in(schema, bytes, at)
}

/// Looks at the string and the numbers of an entry, which are to be those of a partition.
fn compare_entry(
    partition: &[u8],
    numbers: EntryNumbers,
    at: u64,
    key: &[u8],
    sum: PartitionSum,
) -> Result<(), Refusal>
    ensures { ComparesEntry at partition.now numbers key.now sum result }
{
    if partition != key {
        return Err(clash_at(Part::Rows, at, Clash::Key));
    }
    if numbers.position != sum.position {
        let found = numbers.position as i128;
        let wanted = sum.position as i128;
        return Err(number_clash(Part::Rows, at, found, wanted));
    }
    if numbers.blocks as u64 != sum.blocks {
        let found = numbers.blocks as i128;
        let wanted = sum.blocks as i128;
        return Err(number_clash(Part::Rows, at, found, wanted));
    }
    Ok(())
}

/// The numbers of the entry at a position of Rows.db, which is to be that of a partition of this string.
pub fn entry_of<K: Store>(
    alloc: Global,
    schema: &Schema,
    cache: &mut PageCache,
    store: &mut K,
    generation: u32,
    at: u64,
    key: &[u8],
    sum: PartitionSum,
) -> Result<EntryNumbers, Refusal>
    requires place { at < 2 ^ 63 }
    requires honest { Honest (K.files store.old) cache.old }
    ensures told { IfSome (K.files store.old) (λ m. FindsEntry (columns_of schema.now) (bytes_of m (rows_id generation))
        at key.now sum result) }
    ensures honest { Honest (K.files store.new) cache.new }
    ensures files { K.files store.new ≡ K.files store.old }
    ensures later { K.faults store.old ≤ K.faults store.new }
    ensures fault { result ≡ Err (Unread StoreFault) → Rose (K.faults store.old) (K.faults store.new) }
{
    let bytes = read_span(alloc, cache, store, rows_id(generation), at, LONGEST_ENTRY)?;
    let Some(entry) = written_entry(schema, bytes.as_slice(), at) else {
        return Err(damage_at(Part::Rows, at, Cause::BadEntry));
    };
    compare_entry(entry.partition, entry.numbers, at, key, sum)?;
    Ok(entry.numbers)
}
