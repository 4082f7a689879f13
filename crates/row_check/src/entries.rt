//! The entries of Rows.db to which Partitions.db leads, and their row indexes, beside the partitions of Data.db. A step
//! of the check of a table, behind the one that looks at the paths and numbers of Partitions.db.
ghost use Rattle.std.specs.Prelude.{◌≡◌, ◌≤◌, Err, length, IfSome};
ghost use Rattle.outside.specs.declared.store.Part.TheVariants.{Partitions};
ghost use Rattle.outside.specs.Causes.{Rose};
ghost use Rattle.outside.specs.Files.{bytes_of};
ghost use Rattle.key_types.specs.Columns.{columns_of};
ghost use Rattle.page_cache.specs.Pages.{Honest};
ghost use Rattle.data_file.specs.declared.reading.DataError.TheVariants.{StoreFault};
ghost use Rattle.bti_reader.specs.Walks.{last_given};
ghost use Rattle.bti_reader.specs.Ways.{Stands};
ghost use Rattle.table_files.specs.Names.{data_id, partitions_id, rows_id};
ghost use Rattle.table_reader.specs.Window.{Continues};
ghost use Rattle.data_walk.specs.declared.refusal.Refusal.TheVariants.{Unread};
ghost use Rattle.data_walk.specs.DataWalk.{place_of};
ghost use Rattle.row_check.specs.Entries.{ChecksEntries, ChecksNumber, ComparesEntries};

use crate::blocks::check_blocks;
use crate::entry::entry_of;
use bti_reader::{PathHit, Walk};
use data_walk::{DataWalk, PartitionSum, Refusal, data_size};
use key_types::Schema;
use outside::{Part, Store};
use page_cache::PageCache;
use path_check::{check_end, next_path, number_clash};
use std::alloc::Global;
use table_files::{data_id, partitions_id};

/// Looks at where the number of a path leads that is the path of a partition of this string: to its entry and its row
/// index, where the partition has two or more blocks.
fn check_number<K: Store>(
    alloc: Global,
    schema: &Schema,
    cache: &mut PageCache,
    store: &mut K,
    generation: u32,
    hit: &PathHit,
    key: &[u8],
    sum: PartitionSum,
) -> Result<(), Refusal>
    requires honest { Honest (K.files store.old) cache.old }
    ensures told { IfSome (K.files store.old) (λ m. sum.position ≤ length (bytes_of m (data_id generation))
        → ChecksNumber (columns_of schema.now) (bytes_of m (data_id generation)) (bytes_of m (rows_id generation))
        hit.now.node hit.now.number key.now sum result) }
    ensures honest { Honest (K.files store.new) cache.new }
    ensures files { K.files store.new ≡ K.files store.old }
    ensures later { K.faults store.old ≤ K.faults store.new }
    ensures fault { result ≡ Err (Unread StoreFault) → Rose (K.faults store.old) (K.faults store.new) }
{
    if sum.blocks < 2 {
        return Ok(());
    }
    if hit.number < 0 {
        return Err(number_clash(Part::Partitions, hit.node, hit.number as i128, 0));
    }
    let at = hit.number as u64;
    let entry = entry_of(alloc, schema, cache, store, generation, at, key, sum)?;
    check_blocks(
        alloc,
        schema,
        cache,
        store,
        generation,
        sum.position,
        entry.root,
    )
}

/// Goes over the partitions that follow a walk's place in Data.db, beside the paths of Partitions.db.
fn compare_entries<K: Store>(
    alloc: Global,
    schema: &Schema,
    cache: &mut PageCache,
    store: &mut K,
    generation: u32,
    walk: &mut DataWalk,
    paths: &mut Walk,
    root: u64,
) -> Result<(), Refusal>
    requires file { paths.old.file ≡ partitions_id generation }
    requires root { paths.old.root ≡ root }
    requires honest { Honest (K.files store.old) cache.old }
    requires stands { Stands (K.files store.old) paths.old }
    ensures told { IfSome (K.files store.old) (λ m. Continues (bytes_of m (data_id generation)) walk.old.window
        → ComparesEntries (columns_of schema.now) (bytes_of m (data_id generation)) (bytes_of m (rows_id generation))
        (bytes_of m (partitions_id generation)) root (place_of walk.old) (last_given paths.old.way) result) }
    ensures honest { Honest (K.files store.new) cache.new }
    ensures files { K.files store.new ≡ K.files store.old }
    ensures later { K.faults store.old ≤ K.faults store.new }
    ensures fault { result ≡ Err (Unread StoreFault) → Rose (K.faults store.old) (K.faults store.new) }
{
    let file = data_id(generation);
    'partitions: while let Some(sum) = walk.next(schema, store, file)? {
        let hit = next_path(cache, store, paths, Part::Partitions, root)?;
        let key = walk.key.as_slice();
        check_number(alloc, schema, cache, store, generation, &hit, key, sum)?;
    }
    check_end(cache, store, paths, Part::Partitions)
}

/// Goes through the entries and the row indexes of all partitions of two or more blocks, in the order of partitions. The
/// trie of Partitions.db has its root there.
pub fn check_entries<K: Store>(
    alloc: Global,
    schema: &Schema,
    cache: &mut PageCache,
    store: &mut K,
    generation: u32,
    root: u64,
) -> Result<(), Refusal>
    requires honest { Honest (K.files store.old) cache.old }
    ensures told { IfSome (K.files store.old) (λ m. ChecksEntries (columns_of schema.now)
        (bytes_of m (data_id generation)) (bytes_of m (rows_id generation)) (bytes_of m (partitions_id generation)) root
        result) }
    ensures honest { Honest (K.files store.new) cache.new }
    ensures files { K.files store.new ≡ K.files store.old }
    ensures later { K.faults store.old ≤ K.faults store.new }
    ensures fault { result ≡ Err (Unread StoreFault) → Rose (K.faults store.old) (K.faults store.new) }
{
    let limit = data_size(store, generation)?;
    let mut walk = DataWalk::new(alloc, 0, limit);
    let mut paths = Walk::new(alloc, partitions_id(generation), root);
    compare_entries(
        alloc, schema, cache, store, generation, &mut walk, &mut paths, root,
    )
}
