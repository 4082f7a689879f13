//! The check of a generation, step by step: the first refusal is its answer. The command `check` calls it.
ghost use Rattle.std.specs.Prelude.{◌≡◌, ◌≤◌, Err, IfSome};
ghost use Rattle.outside.specs.Causes.{Rose};
ghost use Rattle.outside.specs.Files.{bytes_of};
ghost use Rattle.key_types.specs.Columns.{columns_of};
ghost use Rattle.page_cache.specs.Pages.{Honest};
ghost use Rattle.data_file.specs.declared.reading.DataError.TheVariants as data_error;
ghost use Rattle.table_files.specs.Names.{data_id, partitions_id, rows_id};
ghost use Rattle.data_walk.specs.declared.refusal.Refusal.TheVariants.{Unread};
ghost use Rattle.table_check.specs.Check.{verdict_of, Answers, Checks, ChecksFiles, ChecksIndexes, ComparesCounts};

use crate::footer::{Footer, check_footer};
use crate::verdict::Verdict;
use data_file::Counts;
use data_walk::Refusal;
use key_types::Schema;
use outside::{Part, Store};
use page_cache::PageCache;
use partition_check::{Found, check_data, check_partitions};
use path_check::number_clash;
use row_check::check_entries;
use std::alloc::Global;
use table_files::read_schema;
use table_reader::TableFault;

/// Compares the trie of Partitions.db, whose root stands there, and what it leads to with the partitions of Data.db.
fn check_indexes<K: Store>(
    alloc: Global,
    schema: &Schema,
    cache: &mut PageCache,
    store: &mut K,
    generation: u32,
    found: &Found,
    root: u64,
) -> Result<(), Refusal>
    requires honest { Honest (K.files store.old) cache.old }
    ensures told { IfSome (K.files store.old) (λ m. ChecksIndexes (columns_of schema.now)
        (bytes_of m (data_id generation)) (bytes_of m (partitions_id generation)) (bytes_of m (rows_id generation))
        found.now root result) }
    ensures files { K.files store.new ≡ K.files store.old }
    ensures later { K.faults store.old ≤ K.faults store.new }
    ensures fault { result ≡ Err (Unread data_error.StoreFault) → Rose (K.faults store.old) (K.faults store.new) }
{
    if found.counts.partitions == 0 {
        return Ok(());
    }
    check_partitions(alloc, schema, cache, store, generation, root)?;
    check_entries(alloc, schema, cache, store, generation, root)
}

/// Compares the footer's number of partitions with that of Data.db.
fn compare_counts(found: &Found, footer: Footer) -> Result<Counts, Refusal>
    ensures { ComparesCounts found.now footer result }
{
    let counts = found.counts;
    let partitions = footer.numbers.partitions;
    if partitions == counts.partitions {
        return Ok(counts);
    }
    let wanted = counts.partitions as i128;
    Err(number_clash(
        Part::Partitions,
        footer.position,
        partitions as i128,
        wanted,
    ))
}

/// How many partitions and rows there are, where all files are as Data.db gives.
fn check_files<K: Store>(
    alloc: Global,
    schema: &Schema,
    store: &mut K,
    generation: u32,
) -> Result<Counts, Refusal>
    ensures told { IfSome (K.files store.old) (λ m. ChecksFiles (columns_of schema.now)
        (bytes_of m (data_id generation)) (bytes_of m (partitions_id generation)) (bytes_of m (rows_id generation))
        result) }
    ensures files { K.files store.new ≡ K.files store.old }
    ensures later { K.faults store.old ≤ K.faults store.new }
    ensures fault { result ≡ Err (Unread data_error.StoreFault) → Rose (K.faults store.old) (K.faults store.new) }
{
    let mut cache = PageCache::new(alloc)?;
    let found = check_data(alloc, schema, store, generation)?;
    let footer = check_footer(alloc, schema, &mut cache, store, generation, &found)?;
    let root = footer.numbers.root;
    check_indexes(alloc, schema, &mut cache, store, generation, &found, root)?;
    compare_counts(&found, footer)
}

/// What a check answers, by how its steps ended.
fn verdict_of(steps: Result<Counts, Refusal>) -> Result<Verdict, TableFault>
    ensures { result ≡ verdict_of steps }
{
    match steps {
        Ok(counts) => Ok(Verdict::Sound(counts)),
        Err(Refusal::Clashes(at)) => Ok(Verdict::Unsound(at)),
        Err(Refusal::Unread(e)) => Err(TableFault::from(e)),
    }
}

/// Checks the files of a generation against each other: `Sound` means that they stand for the map that Data.db lists,
/// and of files that stand for a map nothing else is told but that the store failed or memory ran out. `Unfinished` is
/// answered exactly where Schema.txt isn't there or isn't a whole text of its grammar.
pub fn check<K: Store>(alloc: Global, store: &mut K, generation: u32) -> Result<Verdict, TableFault>
    ensures checks { IfSome (K.files store.old) (λ m. Checks m generation result) }
    ensures answers { IfSome (K.files store.old) (λ m. Answers m generation result) }
    ensures files { K.files store.new ≡ K.files store.old }
    ensures later { K.faults store.old ≤ K.faults store.new }
    ensures fault { result ≡ Err TableFault.StoreFault → Rose (K.faults store.old) (K.faults store.new) }
{
    let Some(schema) = read_schema(alloc, store, generation)? else {
        return Err(TableFault::Unfinished);
    };
    verdict_of(check_files(alloc, &schema, store, generation))
}
