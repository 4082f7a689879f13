//! The second step of a check: the footer of Partitions.db, and the two strings there. `check` calls it once it knows
//! the partitions of Data.db. The footer's strings are compared here, but not its numbers.
ghost use Rattle.std.specs.Prelude.{◌≡◌, ◌≤◌, ◌<◌, ◌+◌, ◌⊎◌, ◌↔◌, length, Err, IfSome, IsNone, IsTrue};
ghost use Rattle.outside.specs.Causes.{Rose};
ghost use Rattle.outside.specs.Files.{bytes_of};
ghost use Rattle.key_types.specs.Columns.{columns_of};
ghost use Rattle.page_cache.specs.Pages.{Honest};
ghost use Rattle.data_file.specs.declared.reading.DataError.TheVariants.{StoreFault};
ghost use Rattle.index_files.specs.Footers.{EndsInNone};
ghost use Rattle.index_files.specs.Reading.{footer_place};
ghost use Rattle.table_files.specs.Names.{partitions_id};
ghost use Rattle.data_walk.specs.declared.refusal.Refusal.TheVariants.{Unread};
ghost use Rattle.table_check.specs.Footing.{ChecksFooter, ComparesFooter, EndsInThis};

use bti_nodes::Cause;
use data_walk::{Clash, Refusal, clash_at};
use index_files::{FooterNumbers, FooterParts, footer_in, read_span};
use key_types::Schema;
use outside::{Part, Store};
use page_cache::PageCache;
use partition_check::Found;
use path_check::damage_at;
use std::alloc::Global;
use table_files::partitions_id;

/// How many bytes a footer has at least, with its strings.
const SHORTEST: usize = 28;

/// How many it has at most.
const LONGEST: usize = 2076;

/// The footer that was read: its numbers, and where they stand.
#[derive(Clone, Copy, Debug, PartialEq, Eq)]
pub struct Footer {
    pub position: u64,
    pub numbers: FooterNumbers,
}

/// Where a footer's numbers stand, in a file of that size.
fn footer_place(size: u64) -> u64
    ensures { result ≡ footer_place size }
{
    if size < SHORTEST as u64 { 0 } else { size - 24 }
}

/// The footer of a file of which these are the last bytes, from a position on; `None` where it has none, or where the
/// bytes are fewer than they have to be.
fn footer_of<'b>(schema: &Schema, tail: &'b [u8], start: u64) -> Option<FooterParts<'b>>
    ensures some { IfSome result (λ f.
        EndsInThis (columns_of schema.now) start tail.now f.first.now f.last.now f.numbers) }
    ensures none { IsNone result → (start ≡ 0) ⊎ (2076 ≤ length tail.now)
        → EndsInNone (columns_of schema.now) start tail.now }
{
    if tail.len() < SHORTEST {
        return None;
    }
    if start > 0 && tail.len() < LONGEST {
        return None;
    }
    footer_in(schema, tail, start)
}

/// Whether the strings of a footer are those that were found.
fn are_found(first: &[u8], last: &[u8], found: &Found) -> bool
    ensures { IsTrue result ↔ (first.now ≡ found.now.first) × (last.now ≡ found.now.last) }
{
    first == found.first.as_slice() && last == found.last.as_slice()
}

/// The footer of a file of so many bytes, of which these are the last ones, if its strings are those that were found.
fn compare_footer(schema: &Schema, tail: &[u8], size: u64, found: &Found) -> Result<Footer, Refusal>
    ensures told { ComparesFooter (columns_of schema.now) size tail.now found.now.first found.now.last result }
    ensures fault { ¬ (result ≡ Err (Unread StoreFault)) }
{
    let start = size.saturating_sub(LONGEST as u64);
    let position = footer_place(size);
    let Some(footer) = footer_of(schema, tail, start) else {
        return Err(damage_at(Part::Partitions, position, Cause::BadFooter));
    };
    if !are_found(footer.first, footer.last, found) {
        return Err(clash_at(Part::Partitions, position, Clash::Key));
    }
    Ok(Footer {
        position,
        numbers: footer.numbers,
    })
}

/// Reads the footer, whose strings are to be those of the first and the last partition of Data.db.
pub fn check_footer<K: Store>(
    alloc: Global,
    schema: &Schema,
    cache: &mut PageCache,
    store: &mut K,
    generation: u32,
    found: &Found,
) -> Result<Footer, Refusal>
    requires honest { Honest (K.files store.old) cache.old }
    ensures footer { IfSome (K.files store.old) (λ m. ChecksFooter (columns_of schema.now)
        (bytes_of m (partitions_id generation)) found.now.first found.now.last result) }
    ensures honest { Honest (K.files store.new) cache.new }
    ensures files { K.files store.new ≡ K.files store.old }
    ensures later { K.faults store.old ≤ K.faults store.new }
    ensures fault { result ≡ Err (Unread StoreFault) → Rose (K.faults store.old) (K.faults store.new) }
{
    let file = partitions_id(generation);
    let size = store.size(file)?.unwrap_or(0);
    let start = size.saturating_sub(LONGEST as u64);
    let tail = read_span(alloc, cache, store, file, start, LONGEST)?;
    compare_footer(schema, tail.as_slice(), size, found)
}
