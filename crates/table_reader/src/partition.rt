//! Partitions that the indexes name: what stands at a partition's head in Data.db, and where a block of it begins. A scan
//! calls these when it looks for its beginning. What is answered is what stands in the files; nothing is held.
ghost use Rattle.std.specs.Prelude.{◌≡◌, ◌<◌, ◌≤◌, ◌+◌, ◌^◌, ℕ, drop, length, Err, IfOk, IfSome};
ghost use Rattle.outside.specs.Causes.{Rose};
ghost use Rattle.outside.specs.Files.{bytes_of};
ghost use Rattle.key_types.specs.Columns.{columns_of};
ghost use Rattle.page_cache.specs.Pages.{Honest};
ghost use Rattle.data_file.specs.Answers.{IsHead};
ghost use Rattle.table_files.specs.Names.{data_id, rows_id};
ghost use Rattle.table_reader.specs.Gets.{bytes_in};
ghost use Rattle.table_reader.specs.Reads.{Ends, IsSeparatorWithin, separator_length};
ghost use Rattle.table_reader.specs.Seeking.{BeginsBlock, EndsAt, HasRows};

use crate::place::{PartitionAt, damaged};
use bti_nodes::Cause;
use bti_reader::floor;
use data_file::{DataError, Head, read_partition_head, read_static_part};
use key_types::Schema;
use outside::Store;
use page_cache::PageCache;
use std::alloc::Global;
use table_files::{data_id, rows_id};

/// A table whose indexes are searched: its generation, the place of the partition index's root, and how many bytes
/// Data.db has.
#[derive(Clone, Copy)]
pub struct Searched {
    pub generation: u32,
    pub root: u64,
    pub limit: u64,
}

/// The head at a place of Data.db, which has `limit` bytes. Damage is told exactly where none begins.
pub fn head_at<K: Store>(
    alloc: Global,
    schema: &Schema,
    store: &mut K,
    generation: u32,
    at: u64,
    limit: u64,
) -> Result<Head, DataError>
    requires limit { limit < 2 ^ 62 }
    requires ends { EndsAt (K.files store.old) (data_id generation) limit }
    ensures head { IfSome (K.files store.old) (λ m.
        IsHead (columns_of schema.now) (drop at (bytes_of m (data_id generation))) at result) }
    ensures place { IfOk result (λ _. at < limit) }
    ensures files { K.files store.new ≡ K.files store.old }
    ensures reads { K.reads store.new ≤ K.reads store.old + 2 }
    ensures later { K.faults store.old ≤ K.faults store.new }
    ensures fault { result ≡ Err DataError.StoreFault → Rose (K.faults store.old) (K.faults store.new) }
{
    if limit <= at {
        return Err(damaged(at, Cause::BadHead));
    }
    read_partition_head(alloc, schema, data_id(generation), at, store)
}

/// Where the rows of a partition begin whose head ends at a place of Data.db, which has `limit` bytes: behind the static
/// part, where the table has a static type. Damage is told exactly where none begins then.
pub fn rows_behind<K: Store>(
    alloc: Global,
    schema: &Schema,
    store: &mut K,
    generation: u32,
    at: u64,
    limit: u64,
) -> Result<u64, DataError>
    requires limit { limit < 2 ^ 62 }
    requires ends { EndsAt (K.files store.old) (data_id generation) limit }
    ensures rows { IfSome (K.files store.old) (λ m.
        Ends (HasRows (bytes_in (columns_of schema.now) m generation) schema.now.static_value at) result) }
    ensures files { K.files store.new ≡ K.files store.old }
    ensures reads { K.reads store.new ≤ K.reads store.old + 18 }
    ensures later { K.faults store.old ≤ K.faults store.new }
    ensures fault { result ≡ Err DataError.StoreFault → Rose (K.faults store.old) (K.faults store.new) }
{
    if schema.static_value.is_none() {
        return Ok(at);
    }
    if limit <= at {
        return Err(damaged(at, Cause::BadRow));
    }
    let part = read_static_part(alloc, schema, data_id(generation), at, store)?;
    Ok(part.end)
}

/// The block of a partition, whose head ends at `behind`, in which the rows begin that aren't below the clustering.
pub fn block<K: Store>(
    alloc: Global,
    schema: &Schema,
    pages: &mut PageCache,
    store: &mut K,
    table: Searched,
    place: PartitionAt,
    behind: u64,
    clustering: &[u8],
) -> Result<u64, DataError>
    requires honest { Honest (K.files store.old) pages.old }
    requires limit { table.limit < 2 ^ 62 }
    requires ends { EndsAt (K.files store.old) (data_id table.generation) table.limit }
    requires head { place.head < table.limit }
    ensures block { IfSome (K.files store.old) (λ m.
        Ends (BeginsBlock (bytes_in (columns_of schema.now) m table.generation) place clustering.now behind place.root) result) }
    ensures honest { Honest (K.files store.new) pages.new }
    ensures files { K.files store.new ≡ K.files store.old }
    ensures reads { IfSome (K.files store.old) (λ m. IfOk result (λ _. K.reads store.new ≤ K.reads store.old
        + (length clustering.now + separator_length (bytes_of m (rows_id table.generation)) place.root clustering.now + 19))) }
    ensures within { IfSome (K.files store.old) (λ m. (most : ℕ)
        → IsSeparatorWithin (bytes_of m (rows_id table.generation)) place.root clustering.now most
        → K.reads store.new ≤ K.reads store.old + (length clustering.now + 19 + most)) }
    ensures later { K.faults store.old ≤ K.faults store.new }
    ensures fault { result ≡ Err DataError.StoreFault → Rose (K.faults store.old) (K.faults store.new) }
{
    if let Some(root) = place.root {
        let file = rows_id(table.generation);
        if let Some(hit) = floor(pages, store, file, root, clustering)? {
            return Ok(place.head + hit.number.unsigned_abs());
        }
    }
    rows_behind(alloc, schema, store, table.generation, behind, table.limit)
}
