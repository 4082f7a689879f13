//! The footer and entries, read from their files through the cache of pages. A table is opened with its footer, and a
//! lookup in a partition of two or more blocks begins with its entry.
ghost use Rattle.std.specs.Prelude.{◌≡◌, ◌≤◌, ◌<◌, ◌+◌, ◌^◌, ◌⊎◌, length, drop, Err, IfSome, IsNone};
ghost use Rattle.outside.specs.Causes.{Rose};
ghost use Rattle.outside.specs.Files.{bytes_of};
ghost use Rattle.key_types.specs.Columns.{columns_of};
ghost use Rattle.page_cache.specs.Pages.{Honest};
ghost use Rattle.index_files.specs.Footers.{EndsInNone};
ghost use Rattle.index_files.specs.Reading.{file_damage, footer_place, EndsInNumbers, ReadsEntry, ReadsFooter};

use crate::entry::{EntryNumbers, entry_in};
use crate::footer::{FooterNumbers, footer_in};
use crate::span::read_span;
use bti_nodes::{Cause, Damage};
use data_file::DataError;
use key_types::Schema;
use outside::{FileId, Part, Store};
use page_cache::PageCache;
use std::alloc::Global;

/// How many bytes a footer has at least, with its strings.
const SHORTEST_FOOTER: usize = 28;

/// How many it has at most.
const LONGEST_FOOTER: usize = 2076;

/// How many bytes an entry has at most.
const LONGEST_ENTRY: usize = 1046;

/// The numbers of the footer of a partition index of which these are the last bytes, from a position on; `None` where
/// it has none, or where the bytes are fewer than they have to be.
fn numbers_in(schema: &Schema, tail: &[u8], start: u64) -> Option<FooterNumbers>
    ensures some { IfSome result (EndsInNumbers (columns_of schema.now) start tail.now) }
    ensures none { IsNone result → (start ≡ 0) ⊎ (2076 ≤ length tail.now) → EndsInNone (columns_of schema.now) start tail.now }
{
    if tail.len() < SHORTEST_FOOTER {
        return None;
    }
    if start > 0 && tail.len() < LONGEST_FOOTER {
        return None;
    }
    let footer = footer_in(schema, tail, start)?;
    Some(footer.numbers)
}

/// Where damage of the footer is told, in a file of that size.
fn footer_place(size: u64) -> u64
    ensures { result ≡ footer_place size }
{
    if size < 28 { 0 } else { size - 24 }
}

/// The numbers of the footer of a partition index. Damage is told exactly where the file has none.
pub fn read_footer<K: Store>(
    alloc: Global,
    schema: &Schema,
    cache: &mut PageCache,
    store: &mut K,
    file: FileId,
) -> Result<FooterNumbers, DataError>
    requires honest { Honest (K.files store.old) cache.old }
    ensures footer { IfSome (K.files store.old) (λ m. ReadsFooter (columns_of schema.now) file.part (bytes_of m file) result) }
    ensures honest { Honest (K.files store.new) cache.new }
    ensures files { K.files store.new ≡ K.files store.old }
    ensures reads { K.reads store.new ≤ K.reads store.old + 2 }
    ensures later { K.faults store.old ≤ K.faults store.new }
    ensures fault { result ≡ Err DataError.StoreFault → Rose (K.faults store.old) (K.faults store.new) }
{
    let size = store.size(file)?.unwrap_or(0);
    let start = size.saturating_sub(LONGEST_FOOTER as u64);
    let tail = read_span(alloc, cache, store, file, start, LONGEST_FOOTER)?;
    match numbers_in(schema, tail.as_slice(), start) {
        Some(numbers) => Ok(numbers),
        None => Err(damaged(file.part, footer_place(size), Cause::BadFooter)),
    }
}

fn damaged(part: Part, position: u64, cause: Cause) -> DataError
    ensures { result ≡ DataError.Damaged (file_damage part position cause) }
{
    DataError::Damaged(Damage {
        part,
        position,
        cause,
    })
}

/// The numbers of the entry at a position of the row index. Damage is told exactly where no entry begins there.
pub fn read_entry<K: Store>(
    alloc: Global,
    schema: &Schema,
    cache: &mut PageCache,
    store: &mut K,
    file: FileId,
    at: u64,
) -> Result<EntryNumbers, DataError>
    requires honest { Honest (K.files store.old) cache.old }
    requires place { at < 2 ^ 63 }
    ensures entry { IfSome (K.files store.old) (λ m. ReadsEntry (columns_of schema.now) file.part (bytes_of m file) at result) }
    ensures honest { Honest (K.files store.new) cache.new }
    ensures files { K.files store.new ≡ K.files store.old }
    ensures reads { K.reads store.new ≤ K.reads store.old + 2 }
    ensures later { K.faults store.old ≤ K.faults store.new }
    ensures fault { result ≡ Err DataError.StoreFault → Rose (K.faults store.old) (K.faults store.new) }
{
    let bytes = read_span(alloc, cache, store, file, at, LONGEST_ENTRY)?;
    match entry_in(schema, bytes.as_slice(), at) {
        Some(entry) => Ok(entry.numbers),
        None => Err(damaged(file.part, at, Cause::BadEntry)),
    }
}
