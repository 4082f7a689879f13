//! The third step of a check: the paths and numbers of the partition index, beside the partitions of Data.db. `check`
//! calls it where Data.db has a partition; it keeps the strings of three partitions.
ghost use Rattle.std.specs.Prelude.{◌≡◌, ◌↔◌, ◌≤◌, [], Err, None, IfSome, IsTrue};
ghost use Rattle.outside.specs.declared.store.Part.TheVariants.{Partitions};
ghost use Rattle.outside.specs.Causes.{Rose};
ghost use Rattle.outside.specs.Files.{bytes_of};
ghost use Rattle.key_types.specs.Columns.{columns_of};
ghost use Rattle.key_decode.specs.Strings.{IsStringOf};
ghost use Rattle.page_cache.specs.Pages.{Honest};
ghost use Rattle.data_file.specs.declared.reading.DataError.TheVariants.{StoreFault};
ghost use Rattle.bti_reader.specs.Walks.{last_given};
ghost use Rattle.bti_reader.specs.Ways.{Stands};
ghost use Rattle.table_files.specs.Names.{data_id, partitions_id};
ghost use Rattle.table_reader.specs.Window.{Continues};
ghost use Rattle.data_walk.specs.declared.refusal.Refusal.TheVariants.{Unread};
ghost use Rattle.data_walk.specs.DataWalk.{place_of};
ghost use Rattle.partition_check.specs.Partitions.{key_behind, wanted_number, ChecksPartitions, ChecksPath, ComparesPartitions, ComparesPath, FitsNumber};

use crate::neighbours::Between;
use bti_reader::{PathHit, Walk};
use data_walk::{Clash, DataWalk, PartitionSum, Refusal, clash_at, data_size};
use key_types::Schema;
use outside::{FileId, Part, Store};
use page_cache::PageCache;
use path_check::{check_end, next_path, number_clash};
use std::alloc::Global;
use table_files::{data_id, partitions_id};

/// The string of the partition that a walk passed last, where it passed one now.
fn key_behind<'w>(sum: Option<PartitionSum>, key: &'w [u8]) -> &'w [u8]
    ensures { result.now ≡ key_behind sum key.now }
{
    match sum {
        Some(_) => key,
        None => &[],
    }
}

/// Whether a number is one of a partition: some position where it has more blocks than one, and the complement of its
/// own where it has one.
fn fits_number(number: i64, sum: PartitionSum) -> bool
    ensures { IsTrue result ↔ FitsNumber sum number }
{
    if sum.blocks > 1 {
        return number >= 0;
    }
    number as i128 == -1 - sum.position as i128
}

/// The number that is told as wanted where another stands there.
fn wanted_number(sum: PartitionSum) -> i128
    ensures { result ≡ wanted_number sum }
{
    if sum.blocks > 1 {
        return 0;
    }
    -1 - sum.position as i128
}

/// Looks at a path of the index, and at its number.
fn compare_path(hit: &PathHit, path: &[u8], sum: PartitionSum) -> Result<(), Refusal>
    ensures { ComparesPath hit.now.path hit.now.node hit.now.number path.now sum result }
{
    if hit.path.as_slice() != path {
        return Err(clash_at(Part::Partitions, hit.node, Clash::Path));
    }
    if !fits_number(hit.number, sum) {
        let found = hit.number as i128;
        return Err(number_clash(Part::Partitions, hit.node, found, wanted_number(sum)));
    }
    Ok(())
}

/// Looks at the next path of the index, which is to be that of a partition.
fn check_path<K: Store>(
    cache: &mut PageCache,
    store: &mut K,
    paths: &mut Walk,
    root: u64,
    path: &[u8],
    sum: PartitionSum,
) -> Result<(), Refusal>
    requires part { paths.old.file.part ≡ Partitions }
    requires root { paths.old.root ≡ root }
    requires honest { Honest (K.files store.old) cache.old }
    requires stands { Stands (K.files store.old) paths.old }
    ensures told { IfSome (K.files store.old) (λ m. ChecksPath (bytes_of m paths.old.file) root
        (last_given paths.old.way) path.now sum (last_given paths.new.way) result) }
    ensures same { paths.new ≡ record paths.old { way = paths.new.way } }
    ensures stands { Stands (K.files store.new) paths.new }
    ensures honest { Honest (K.files store.new) cache.new }
    ensures files { K.files store.new ≡ K.files store.old }
    ensures later { K.faults store.old ≤ K.faults store.new }
    ensures fault { result ≡ Err (Unread StoreFault) → Rose (K.faults store.old) (K.faults store.new) }
{
    let hit = next_path(cache, store, paths, Part::Partitions, root)?;
    compare_path(&hit, path, sum)
}

/// Goes through the index beside the partitions from the one on that a walk passed last, where it passed one.
fn compare_partitions<K: Store>(
    alloc: Global,
    schema: &Schema,
    cache: &mut PageCache,
    store: &mut K,
    file: FileId,
    walk: &mut DataWalk,
    paths: &mut Walk,
    first: Option<PartitionSum>,
    root: u64,
) -> Result<(), Refusal>
    requires first { IfSome first (λ _. IsStringOf (columns_of schema.now).partition walk.old.key) }
    requires part { paths.old.file.part ≡ Partitions }
    requires root { paths.old.root ≡ root }
    requires honest { Honest (K.files store.old) cache.old }
    requires stands { Stands (K.files store.old) paths.old }
    ensures told { IfSome (K.files store.old) (λ m. Continues (bytes_of m file) walk.old.window
        → ComparesPartitions (columns_of schema.now) (bytes_of m file) (bytes_of m paths.old.file) root [] first
        (place_of walk.old) (last_given paths.old.way) result) }
    ensures honest { Honest (K.files store.new) cache.new }
    ensures files { K.files store.new ≡ K.files store.old }
    ensures later { K.faults store.old ≤ K.faults store.new }
    ensures fault { result ≡ Err (Unread StoreFault) → Rose (K.faults store.old) (K.faults store.new) }
{
    let mut at = Between::new(alloc);
    let mut sum = first;
    'partitions: while let Some(here) = sum {
        at.go_on(walk.key.as_slice())?;
        sum = walk.next(schema, store, file)?;
        let path = at.path(key_behind(sum, walk.key.as_slice()));
        check_path(cache, store, paths, root, path, here)?;
    }
    check_end(cache, store, paths, Part::Partitions)
}

/// Goes through the partition index, whose trie has its root there, beside Data.db.
pub fn check_partitions<K: Store>(
    alloc: Global,
    schema: &Schema,
    cache: &mut PageCache,
    store: &mut K,
    generation: u32,
    root: u64,
) -> Result<(), Refusal>
    requires honest { Honest (K.files store.old) cache.old }
    ensures told { IfSome (K.files store.old) (λ m. ChecksPartitions (columns_of schema.now)
        (bytes_of m (data_id generation)) (bytes_of m (partitions_id generation)) root result) }
    ensures honest { Honest (K.files store.new) cache.new }
    ensures files { K.files store.new ≡ K.files store.old }
    ensures later { K.faults store.old ≤ K.faults store.new }
    ensures fault { result ≡ Err (Unread StoreFault) → Rose (K.faults store.old) (K.faults store.new) }
{
    let file = data_id(generation);
    let limit = data_size(store, generation)?;
    let mut walk = DataWalk::new(alloc, 0, limit);
    let first = walk.next(schema, store, file)?;
    let mut paths = Walk::new(alloc, partitions_id(generation), root);
    compare_partitions(
        alloc, schema, cache, store, file, &mut walk, &mut paths, first, root,
    )
}
