//! The steps of a lookup, one behind the other: an open table calls them with its footer's numbers. They read the
//! partition index, the head of the partition, and of its rows one block at most.
ghost use Rattle.std.specs.Prelude.{◌≡◌, ◌<◌, ◌≤◌, ◌+◌, ◌^◌, ℕ, length, Err, IfSome, IsSome, OnOk};
ghost use Rattle.std.specs.Prelude.{option_copied};
ghost use Rattle.outside.specs.Causes.{Rose};
ghost use Rattle.key_types.specs.Columns.{columns_of};
ghost use Rattle.page_cache.specs.Pages.{Honest};
ghost use Rattle.table_files.specs.Names.{rows_id};
ghost use Rattle.outside.specs.Files.{bytes_of};
ghost use Rattle.table_reader.specs.Gets.{FindsInside, FindsThere, Gets, bytes_in};
ghost use Rattle.table_reader.specs.Reads.{block_length, clustering_length, Ends, IsBounded, IsWithinThere};
ghost use Rattle.table_reader.specs.Reads.{IsAlwaysBounded, IsSoundThere, IsWantedWithin};

use crate::block_at::{block_of, static_value};
use crate::place::{PartitionAt, behind_head, number_of, place_of};
use crate::row_value::row_value;
use data_file::DataError;
use index_files::FooterNumbers;
use key_types::{Schema, ValueBytes};
use outside::Store;
use page_cache::PageCache;
use std::alloc::Global;

/// What is wanted of a partition whose head ends at a position: the row of a clustering, or the static value.
fn value_inside<K: Store>(
    alloc: Global,
    schema: &Schema,
    pages: &mut PageCache,
    store: &mut K,
    generation: u32,
    there: PartitionAt,
    behind: u64,
    wanted: Option<&[u8]>,
) -> Result<Option<ValueBytes>, DataError>
    requires honest { Honest (K.files store.old) pages.old }
    requires head { there.head < 2 ^ 62 }
    requires behind { there.head ≤ behind }
    ensures value { IfSome (K.files store.old) (λ m. Ends (FindsInside (bytes_in (columns_of schema.now) m generation)
        there (option_copied wanted.entry) behind) result) }
    ensures honest { Honest (K.files store.new) pages.new }
    ensures files { K.files store.new ≡ K.files store.old }
    ensures reads { IfSome (K.files store.old) (λ m. OnOk result (K.reads store.new ≤ K.reads store.old + 41
        + block_length (bytes_of m (rows_id generation)) there.root (option_copied wanted.entry))) }
    ensures within { IfSome (K.files store.old) (λ m. (most : ℕ)
        → IsWantedWithin (bytes_of m (rows_id generation)) there.root (option_copied wanted.entry) most
        → K.reads store.new ≤ K.reads store.old + (41 + clustering_length (option_copied wanted.entry) + most)) }
    ensures later { K.faults store.old ≤ K.faults store.new }
    ensures fault { result ≡ Err DataError.StoreFault → Rose (K.faults store.old) (K.faults store.new) }
{
    let Some(key) = wanted else {
        return static_value(alloc, schema, store, generation, behind);
    };
    let block = block_of(alloc, schema, pages, store, generation, there, behind, key)?;
    row_value(alloc, schema, pages, store, generation, block, key)
}

/// What is wanted of the partition to which a number of the partition index leads; `None` where it isn't the key's.
fn value_there<K: Store>(
    alloc: Global,
    schema: &Schema,
    pages: &mut PageCache,
    store: &mut K,
    generation: u32,
    number: i64,
    key: &[u8],
    wanted: Option<&[u8]>,
) -> Result<Option<ValueBytes>, DataError>
    requires honest { Honest (K.files store.old) pages.old }
    ensures value { IfSome (K.files store.old) (λ m. Ends (FindsThere (bytes_in (columns_of schema.now) m generation)
        key.now (option_copied wanted.entry) number) result) }
    ensures honest { Honest (K.files store.new) pages.new }
    ensures files { K.files store.new ≡ K.files store.old }
    ensures reads { IfSome (K.files store.old) (λ m. OnOk result ((most : ℕ)
        → IsWithinThere (bytes_in (columns_of schema.now) m generation) number (option_copied wanted.entry) most
        → K.reads store.new ≤ K.reads store.old + 45 + clustering_length (option_copied wanted.entry) + most)) }
    ensures within { IfSome (K.files store.old) (λ m. (most : ℕ)
        → IsSoundThere (bytes_in (columns_of schema.now) m generation) number (option_copied wanted.entry) most
        → K.reads store.new ≤ K.reads store.old + (45 + clustering_length (option_copied wanted.entry) + most)) }
    ensures later { K.faults store.old ≤ K.faults store.new }
    ensures fault { result ≡ Err DataError.StoreFault → Rose (K.faults store.old) (K.faults store.new) }
{
    let there = place_of(alloc, schema, pages, store, generation, number)?;
    match behind_head(alloc, schema, pages, store, generation, there.head, key)? {
        Some(behind) => value_inside(
            alloc, schema, pages, store, generation, there, behind, wanted,
        ),
        None => Ok(None),
    }
}

/// What a get finds.
pub fn value_of<K: Store>(
    alloc: Global,
    schema: &Schema,
    pages: &mut PageCache,
    store: &mut K,
    generation: u32,
    footer: FooterNumbers,
    key: &[u8],
    wanted: Option<&[u8]>,
) -> Result<Option<ValueBytes>, DataError>
    requires honest { Honest (K.files store.old) pages.old }
    ensures value { IfSome (K.files store.old) (λ m. Ends (Gets (bytes_in (columns_of schema.now) m generation)
        footer key.now (option_copied wanted.entry)) result) }
    ensures honest { Honest (K.files store.new) pages.new }
    ensures files { K.files store.new ≡ K.files store.old }
    ensures reads { IfSome (K.files store.old) (λ m. OnOk result (IsBounded
        (bytes_in (columns_of schema.now) m generation) footer key.now (option_copied wanted.entry)
        (K.reads store.old) (K.reads store.new))) }
    ensures within { IfSome (K.files store.old) (λ m. IsAlwaysBounded
        (bytes_in (columns_of schema.now) m generation) footer key.now (option_copied wanted.entry)
        (K.reads store.old) (K.reads store.new)) }
    ensures later { K.faults store.old ≤ K.faults store.new }
    ensures fault { result ≡ Err DataError.StoreFault → Rose (K.faults store.old) (K.faults store.new) }
{
    match number_of(pages, store, generation, footer, key)? {
        Some(number) => value_there(alloc, schema, pages, store, generation, number, key, wanted),
        None => Ok(None),
    }
}
