//! Where a walk over Data.db begins that wants the entries of a table from a bound on. A scan calls `seek`, by whichever
//! walk it goes on. The search goes through the index files alone, and reads the head of each partition that it comes to.
ghost use Rattle.std.specs.Prelude.{◌≡◌, ◌<◌, ◌≤◌, ◌+◌, ◌^◌, ℕ, length, option_copied, Err, IfOk, IfSome, IsSome, Some};
ghost use Rattle.outside.specs.Causes.{Rose};
ghost use Rattle.outside.specs.Files.{bytes_of};
ghost use Rattle.key_types.specs.Columns.{columns_of};
ghost use Rattle.page_cache.specs.Pages.{Honest};
ghost use Rattle.bti_reader.specs.Searches.{ceiling_in};
ghost use Rattle.data_file.specs.Listing.{head_bytes};
ghost use Rattle.table_files.specs.Names.{data_id, partitions_id, rows_id};
ghost use Rattle.table_reader.specs.Opened.{StandsIn};
ghost use Rattle.table_reader.specs.Gets.{bytes_in};
ghost use Rattle.table_reader.specs.Reads.{clustering_length, path_length, Ends, EndsCall, IsPathWithin, IsWantedWithin};
ghost use Rattle.table_reader.specs.Seeking.{at_head, BeginsFrom, BeginsNext, BeginsScan, BeginsWithin, EndsAt, IsInBound, IsInOf, Seeks};
ghost use Rattle.table_reader.specs.SeekReads.{block_len, WithinFrom, WithinScan, WithinSeek};
ghost use Rattle.table_reader.specs.SeekReads.{AlwaysWithinFrom, AlwaysWithinScan, AlwaysWithinSeek};

use crate::fault::TableFault;
use crate::partition::{Searched, block, head_at};
use crate::place::{PartitionAt, place_of};
use crate::table::OpenTable;
use bti_reader::{ceiling, exact};
use byte_order::compare_bytes;
use data_file::{DataError, Head};
use key_types::{KeyBytes, Schema};
use outside::Store;
use page_cache::PageCache;
use std::alloc::Global;
use std::cmp::Ordering;
use table_files::{data_id, partitions_id};

/// The strings of a bound: that of its partition, and the bound string of its clustering components, where it names some.
#[derive(Debug, Drop)]
pub struct BoundString {
    pub partition: KeyBytes,
    pub clustering: Option<KeyBytes>,
}

/// Where a walk of Data.db begins: a place at which a head stands, or a row or an end mark inside this partition.
#[derive(Debug, Drop)]
pub struct Start {
    pub at: u64,
    pub partition: Option<KeyBytes>,
}

/// Where the walk begins, at the head of a partition.
fn at_head(place: PartitionAt) -> Option<Start>
    ensures { result ≡ at_head place }
{
    Some(Start {
        at: place.head,
        partition: None,
    })
}

/// The head of the first partition whose path in the index isn't below the string.
fn next_partition<K: Store>(
    alloc: Global,
    schema: &Schema,
    pages: &mut PageCache,
    store: &mut K,
    table: Searched,
    string: &[u8],
) -> Result<Option<Start>, DataError>
    requires honest { Honest (K.files store.old) pages.old }
    requires limit { table.limit < 2 ^ 62 }
    requires ends { EndsAt (K.files store.old) (data_id table.generation) table.limit }
    ensures begins { IfSome (K.files store.old) (λ m.
        Ends (BeginsNext (bytes_in (columns_of schema.now) m table.generation) table.root string.now) result) }
    ensures inside { IfOk result (IsInOf string.now) }
    ensures honest { Honest (K.files store.new) pages.new }
    ensures files { K.files store.new ≡ K.files store.old }
    ensures reads { IfSome (K.files store.old) (λ m. IfOk result (λ _. K.reads store.new ≤ K.reads store.old
        + (length string.now + path_length (ceiling_in (bytes_of m (partitions_id table.generation)) table.root string.now) + 5))) }
    ensures within { IfSome (K.files store.old) (λ m. (next : ℕ)
        → IsPathWithin (ceiling_in (bytes_of m (partitions_id table.generation)) table.root string.now) next
        → K.reads store.new ≤ K.reads store.old + (length string.now + 5 + next)) }
    ensures later { K.faults store.old ≤ K.faults store.new }
    ensures fault { result ≡ Err DataError.StoreFault → Rose (K.faults store.old) (K.faults store.new) }
{
    let file = partitions_id(table.generation);
    let Some(hit) = ceiling(pages, store, file, table.root, string)? else {
        return Ok(None);
    };
    let place = place_of(alloc, schema, pages, store, table.generation, hit.number)?;
    head_at(
        alloc,
        schema,
        store,
        table.generation,
        place.head,
        table.limit,
    )?;
    Ok(at_head(place))
}

/// Where the walk begins in the partition of the bound, whose head was read: at it, or in a block.
fn within<K: Store>(
    alloc: Global,
    schema: &Schema,
    pages: &mut PageCache,
    store: &mut K,
    table: Searched,
    place: PartitionAt,
    head: Head,
    bound: &BoundString,
) -> Result<Option<Start>, DataError>
    requires honest { Honest (K.files store.old) pages.old }
    requires limit { table.limit < 2 ^ 62 }
    requires ends { EndsAt (K.files store.old) (data_id table.generation) table.limit }
    requires head { place.head < table.limit }
    ensures begins { IfSome (K.files store.old) (λ m. (head.rows_at ≡ place.head + length (head_bytes head.partition))
        → Ends (BeginsWithin (bytes_in (columns_of schema.now) m table.generation) place head.partition
        bound.now.clustering) result) }
    ensures inside { IfOk result (IsInOf head.partition) }
    ensures honest { Honest (K.files store.new) pages.new }
    ensures files { K.files store.new ≡ K.files store.old }
    ensures reads { IfSome (K.files store.old) (λ m. IfOk result (λ _. K.reads store.new ≤ K.reads store.old
        + (clustering_length bound.now.clustering
        + block_len (bytes_of m (rows_id table.generation)) bound.now.clustering place.root + 19))) }
    ensures within { IfSome (K.files store.old) (λ m. (most : ℕ)
        → IsWantedWithin (bytes_of m (rows_id table.generation)) place.root bound.now.clustering most
        → K.reads store.new ≤ K.reads store.old + (clustering_length bound.now.clustering + 19 + most)) }
    ensures later { K.faults store.old ≤ K.faults store.new }
    ensures fault { result ≡ Err DataError.StoreFault → Rose (K.faults store.old) (K.faults store.new) }
{
    let Some(clustering) = &bound.clustering else {
        return Ok(at_head(place));
    };
    let string = clustering.as_slice();
    let at = block(
        alloc,
        schema,
        pages,
        store,
        table,
        place,
        head.rows_at,
        string,
    )?;
    Ok(Some(Start {
        at,
        partition: Some(head.partition),
    }))
}

/// Where the walk begins by the partition whose path begins the bound's partition. It may be another one.
fn by_partition<K: Store>(
    alloc: Global,
    schema: &Schema,
    pages: &mut PageCache,
    store: &mut K,
    table: Searched,
    number: i64,
    bound: &BoundString,
) -> Result<Option<Start>, DataError>
    requires honest { Honest (K.files store.old) pages.old }
    requires limit { table.limit < 2 ^ 62 }
    requires ends { EndsAt (K.files store.old) (data_id table.generation) table.limit }
    ensures begins { IfSome (K.files store.old) (λ m. Ends
        (BeginsFrom (bytes_in (columns_of schema.now) m table.generation) table.root bound.now (Some number)) result) }
    ensures inside { IfOk result (IsInOf bound.now.partition) }
    ensures honest { Honest (K.files store.new) pages.new }
    ensures files { K.files store.new ≡ K.files store.old }
    ensures reads { IfSome (K.files store.old) (λ m. IfOk result (λ _. WithinFrom
        (bytes_in (columns_of schema.now) m table.generation) table.root bound.now (Some number)
        (K.reads store.old + (length bound.now.partition + 23)) (K.reads store.new))) }
    ensures within { IfSome (K.files store.old) (λ m. AlwaysWithinFrom
        (bytes_in (columns_of schema.now) m table.generation) table.root bound.now (Some number)
        (K.reads store.old + (length bound.now.partition + 23)) (K.reads store.new)) }
    ensures later { K.faults store.old ≤ K.faults store.new }
    ensures fault { result ≡ Err DataError.StoreFault → Rose (K.faults store.old) (K.faults store.new) }
{
    let place = place_of(alloc, schema, pages, store, table.generation, number)?;
    let head = head_at(
        alloc,
        schema,
        store,
        table.generation,
        place.head,
        table.limit,
    )?;
    let string = bound.partition.as_slice();
    match compare_bytes(head.partition.as_slice(), string) {
        Ordering::Less => next_partition(alloc, schema, pages, store, table, string),
        Ordering::Equal => within(alloc, schema, pages, store, table, place, head, bound),
        Ordering::Greater => Ok(at_head(place)),
    }
}

/// The search for a bound in a table of some partitions.
fn search<K: Store>(
    alloc: Global,
    schema: &Schema,
    pages: &mut PageCache,
    store: &mut K,
    generation: u32,
    root: u64,
    bound: &BoundString,
) -> Result<Option<Start>, DataError>
    requires honest { Honest (K.files store.old) pages.old }
    ensures seeks { IfSome (K.files store.old) (λ m.
        Ends (Seeks (bytes_in (columns_of schema.now) m generation) root bound.now) result) }
    ensures inside { IfOk result (IsInOf bound.now.partition) }
    ensures honest { Honest (K.files store.new) pages.new }
    ensures files { K.files store.new ≡ K.files store.old }
    ensures reads { IfSome (K.files store.old) (λ m. IfOk result (λ _. WithinSeek
        (bytes_in (columns_of schema.now) m generation) root bound.now (K.reads store.old) (K.reads store.new))) }
    ensures within { IfSome (K.files store.old) (λ m. AlwaysWithinSeek
        (bytes_in (columns_of schema.now) m generation) root bound.now (K.reads store.old) (K.reads store.new)) }
    ensures later { K.faults store.old ≤ K.faults store.new }
    ensures fault { result ≡ Err DataError.StoreFault → Rose (K.faults store.old) (K.faults store.new) }
{
    let limit = store.size(data_id(generation))?.unwrap_or(0);
    let table = Searched {
        generation,
        root,
        limit,
    };
    let string = bound.partition.as_slice();
    match exact(pages, store, partitions_id(generation), root, string)? {
        Some(hit) => by_partition(alloc, schema, pages, store, table, hit.number, bound),
        None => next_partition(alloc, schema, pages, store, table, string),
    }
}

impl OpenTable {
    /// Where a walk of Data.db begins that wants all entries from a bound on, or all of them: everything that stands
    /// before it is below the bound, and behind it a walk meets what isn't, but perhaps first for some rows of the
    /// bound's partition that are. `None` where no partition is at or above the bound's. Damage is told at the first
    /// place that the search asks for and that is damaged.
    pub fn seek<K: Store>(
        &mut self,
        store: &mut K,
        from: Option<&BoundString>,
    ) -> Result<Option<Start>, TableFault>
        requires stands { StandsIn (K.files store.old) self.old }
        requires footer { IsSome self.old.footer }
        ensures begins { IfSome (K.files store.old) (λ m. IfSome self.old.footer (λ footer. EndsCall
            (BeginsScan (bytes_in (columns_of self.old.schema) m self.old.generation) footer (option_copied from.entry)) result)) }
        ensures inside { IfOk result (IsInBound (option_copied from.entry)) }
        ensures whole { ¬ (result ≡ Err TableFault.Unfinished) }
        ensures stands { StandsIn (K.files store.new) self.new }
        ensures same { self.new ≡ record self.old { pages = self.new.pages } }
        ensures files { K.files store.new ≡ K.files store.old }
        ensures reads { IfSome (K.files store.old) (λ m. IfSome self.old.footer (λ footer. IfOk result (λ _. WithinScan
            (bytes_in (columns_of self.old.schema) m self.old.generation) footer (option_copied from.entry)
            (K.reads store.old) (K.reads store.new)))) }
        ensures within { IfSome (K.files store.old) (λ m. IfSome self.old.footer (λ footer. AlwaysWithinScan
            (bytes_in (columns_of self.old.schema) m self.old.generation) footer (option_copied from.entry)
            (K.reads store.old) (K.reads store.new))) }
        ensures unread { IfSome self.old.footer (λ footer. footer.partitions ≡ 0
            → K.reads store.new ≤ K.reads store.old) }
        ensures later { K.faults store.old ≤ K.faults store.new }
        ensures fault { result ≡ Err TableFault.StoreFault → Rose (K.faults store.old) (K.faults store.new) }
    {
        let Some(bound) = from else {
            return Ok(Some(Start {
                at: 0,
                partition: None,
            }));
        };
        let footer = self.footer.unwrap();
        if footer.partitions == 0 {
            return Ok(None);
        }
        let start = search(
            self.alloc,
            &self.schema,
            &mut self.pages,
            store,
            self.generation,
            footer.root,
            bound,
        )?;
        Ok(start)
    }
}
