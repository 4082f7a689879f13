//! Where a partition stands. A get calls these with the footer's numbers and a partition's string: the number in the
//! index of partitions, where it leads, and the head there, whose string has to be the key.
ghost use Rattle.std.specs.Prelude.{◌≡◌, ◌↔◌, ◌<◌, ◌≤◌, ◌+◌, ◌^◌, [], length, drop};
ghost use Rattle.std.specs.Prelude.{Err, IfErr, IfOk, IfSome, IsTrue, false};
ghost use Rattle.outside.specs.Causes.{Rose};
ghost use Rattle.outside.specs.Files.{bytes_of};
ghost use Rattle.key_types.specs.Columns.{columns_of};
ghost use Rattle.page_cache.specs.Pages.{Honest};
ghost use Rattle.data_file.specs.Answers.{IsStop, damage_at};
ghost use Rattle.index_files.specs.Reading.{partition_place};
ghost use Rattle.table_files.specs.Names.{data_id, partitions_id};
ghost use Rattle.table_reader.specs.Gets.{FindsHead, LeadsTo, bytes_in, number_in};
ghost use Rattle.table_reader.specs.Reads.{Ends};

use bti_nodes::{Cause, Damage};
use bti_reader::exact;
use data_file::{DataError, head_in};
use index_files::{FooterNumbers, PartitionPlace, partition_place, read_entry, read_span};
use key_types::Schema;
use outside::{FileId, Part, Store};
use page_cache::PageCache;
use std::alloc::Global;
use table_files::{data_id, partitions_id, rows_id};

/// No file has so many bytes.
const MOST_BYTES: u64 = 1 << 62;

/// How many bytes a head has at most.
const LONGEST_HEAD: usize = 1026;

/// Where a partition stands: the position of its head in the data file, and of the root of its row index, where it has
/// one.
#[derive(Clone, Copy, Debug, PartialEq, Eq)]
pub struct PartitionAt {
    pub head: u64,
    pub root: Option<u64>,
}

/// Damage of the data file.
pub fn damaged(at: u64, cause: Cause) -> DataError
    ensures { result ≡ DataError.Damaged (damage_at at cause) }
{
    DataError::Damaged(Damage {
        part: Part::Data,
        position: at,
        cause,
    })
}

/// Whether a position is so great that no file has a byte there. Its bytes are then asked for by nobody.
pub fn is_beyond<K: Store>(store: &mut K, file: FileId, at: u64) -> Result<bool, DataError>
    ensures near { IfOk result (λ beyond. beyond ≡ false → at < 2 ^ 62) }
    ensures beyond { IfSome (K.files store.old) (λ m. IfOk result
        (λ beyond. IsTrue beyond → drop at (bytes_of m file) ≡ [])) }
    ensures stops { IfErr result IsStop }
    ensures files { K.files store.new ≡ K.files store.old }
    ensures reads { K.reads store.new ≡ K.reads store.old }
    ensures later { K.faults store.old ≤ K.faults store.new }
    ensures fault { result ≡ Err DataError.StoreFault → Rose (K.faults store.old) (K.faults store.new) }
{
    if at < MOST_BYTES {
        return Ok(false);
    }
    store.size(file)?;
    Ok(true)
}

/// The number that the partition index has for a key, where it has one.
pub fn number_of<K: Store>(
    pages: &mut PageCache,
    store: &mut K,
    generation: u32,
    footer: FooterNumbers,
    key: &[u8],
) -> Result<Option<i64>, DataError>
    requires honest { Honest (K.files store.old) pages.old }
    ensures found { IfSome (K.files store.old) (λ m. Ends
        (λ found. found ≡ number_in (bytes_of m (partitions_id generation)) footer key.now) result) }
    ensures honest { Honest (K.files store.new) pages.new }
    ensures files { K.files store.new ≡ K.files store.old }
    ensures reads { K.reads store.new ≤ K.reads store.old + (length key.now + 1) }
    ensures later { K.faults store.old ≤ K.faults store.new }
    ensures fault { result ≡ Err DataError.StoreFault → Rose (K.faults store.old) (K.faults store.new) }
{
    if footer.partitions == 0 {
        return Ok(None);
    }
    let file = partitions_id(generation);
    match exact(pages, store, file, footer.root, key)? {
        Some(hit) => Ok(Some(hit.number)),
        None => Ok(None),
    }
}

/// Where a number of the partition index leads.
pub fn place_of<K: Store>(
    alloc: Global,
    schema: &Schema,
    pages: &mut PageCache,
    store: &mut K,
    generation: u32,
    number: i64,
) -> Result<PartitionAt, DataError>
    requires honest { Honest (K.files store.old) pages.old }
    ensures place { IfSome (K.files store.old) (λ m. Ends
        (LeadsTo (bytes_in (columns_of schema.now) m generation) (partition_place number)) result) }
    ensures honest { Honest (K.files store.new) pages.new }
    ensures files { K.files store.new ≡ K.files store.old }
    ensures reads { K.reads store.new ≤ K.reads store.old + 2 }
    ensures later { K.faults store.old ≤ K.faults store.new }
    ensures fault { result ≡ Err DataError.StoreFault → Rose (K.faults store.old) (K.faults store.new) }
{
    match partition_place(number) {
        PartitionPlace::Head(head) => Ok(PartitionAt { head, root: None }),
        PartitionPlace::Entry(at) => {
            let entry = read_entry(alloc, schema, pages, store, rows_id(generation), at)?;
            Ok(PartitionAt {
                head: entry.position,
                root: Some(entry.root),
            })
        }
    }
}

fn is_same(one: &[u8], other: &[u8]) -> bool
    ensures { IsTrue result ↔ (one.now ≡ other.now) }
{
    one == other
}

/// The position behind the head at a position, where it is that of the key; `None` where it is another's. Damage is
/// told exactly where no head begins there.
pub fn behind_head<K: Store>(
    alloc: Global,
    schema: &Schema,
    pages: &mut PageCache,
    store: &mut K,
    generation: u32,
    at: u64,
    key: &[u8],
) -> Result<Option<u64>, DataError>
    requires honest { Honest (K.files store.old) pages.old }
    ensures head { IfSome (K.files store.old) (λ m. Ends
        (FindsHead (bytes_in (columns_of schema.now) m generation) key.now at) result) }
    ensures near { IfOk result (λ _. at < 2 ^ 62) }
    ensures behind { IfOk result (λ behind. IfSome behind (λ b. at ≤ b)) }
    ensures honest { Honest (K.files store.new) pages.new }
    ensures files { K.files store.new ≡ K.files store.old }
    ensures reads { K.reads store.new ≤ K.reads store.old + 2 }
    ensures later { K.faults store.old ≤ K.faults store.new }
    ensures fault { result ≡ Err DataError.StoreFault → Rose (K.faults store.old) (K.faults store.new) }
{
    let file = data_id(generation);
    if is_beyond(store, file, at)? {
        return Err(damaged(at, Cause::BadHead));
    }
    let bytes = read_span(alloc, pages, store, file, at, LONGEST_HEAD)?;
    match head_in(schema, bytes.as_slice()) {
        Some(found) if is_same(found, key) => Ok(Some(at + 2 + key.len() as u64)),
        Some(_) => Ok(None),
        None => Err(damaged(at, Cause::BadHead)),
    }
}
