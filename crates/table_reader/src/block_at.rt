//! The block of a partition in which a row is looked for: the last one whose separator isn't above the row's string, by
//! the row index, and else the first. A get calls these with the partition's place.
ghost use Rattle.std.specs.Prelude.{◌≡◌, ◌<◌, ◌≤◌, ◌+◌, ◌-◌, ◌^◌, ℕ, length, drop, Err, IfErr, IfOk, IfSome, IsSome, OnOk};
ghost use Rattle.outside.specs.Causes.{Rose};
ghost use Rattle.outside.specs.Files.{bytes_of};
ghost use Rattle.key_types.specs.Columns.{columns_of};
ghost use Rattle.page_cache.specs.Pages.{Honest};
ghost use Rattle.data_file.specs.Answers.{IsStaticPart};
ghost use Rattle.table_files.specs.Names.{data_id, rows_id};
ghost use Rattle.table_reader.specs.Gets.{FindsBlock, FindsStatic, FirstBlock, bytes_in, offset_in};
ghost use Rattle.table_reader.specs.Reads.{Ends, IsSeparatorWithin, separator_length};

use crate::place::{PartitionAt, damaged, is_beyond};
use bti_nodes::Cause;
use bti_reader::floor;
use data_file::{DataError, StaticPart, read_static_part};
use key_types::{Schema, ValueBytes};
use outside::Store;
use page_cache::PageCache;
use std::alloc::Global;
use table_files::{data_id, rows_id};

/// A block ends with the first row that ends so many bytes or more behind its start.
const BLOCK_SIZE: u64 = 16_384;

/// A block: the position of its first row, and that of which its last row ends at or behind.
#[derive(Clone, Copy, Debug, PartialEq, Eq)]
pub struct BlockAt {
    pub rows: u64,
    pub limit: u64,
}

/// The static part at a position of the data file. Damage is told exactly where none begins there.
fn static_part_at<K: Store>(
    alloc: Global,
    schema: &Schema,
    store: &mut K,
    generation: u32,
    at: u64,
) -> Result<StaticPart, DataError>
    requires static_part { IsSome schema.now.static_value }
    ensures part { IfSome (K.files store.old) (λ m.
        IsStaticPart (columns_of schema.now) (drop at (bytes_of m (data_id generation))) at result) }
    ensures files { K.files store.new ≡ K.files store.old }
    ensures reads { K.reads store.new ≤ K.reads store.old + 18 }
    ensures later { K.faults store.old ≤ K.faults store.new }
    ensures fault { result ≡ Err DataError.StoreFault → Rose (K.faults store.old) (K.faults store.new) }
{
    let file = data_id(generation);
    if is_beyond(store, file, at)? {
        return Err(damaged(at, Cause::BadRow));
    }
    read_static_part(alloc, schema, file, at, store)
}

/// The static value of the partition whose head ends at a position; `None` where it has none.
pub fn static_value<K: Store>(
    alloc: Global,
    schema: &Schema,
    store: &mut K,
    generation: u32,
    at: u64,
) -> Result<Option<ValueBytes>, DataError>
    ensures value { IfSome (K.files store.old) (λ m. Ends (FindsStatic schema.now.static_value
        (bytes_in (columns_of schema.now) m generation) at) result) }
    ensures files { K.files store.new ≡ K.files store.old }
    ensures reads { K.reads store.new ≤ K.reads store.old + 18 }
    ensures later { K.faults store.old ≤ K.faults store.new }
    ensures fault { result ≡ Err DataError.StoreFault → Rose (K.faults store.old) (K.faults store.new) }
{
    if schema.static_value.is_none() {
        return Ok(None);
    }
    let part = static_part_at(alloc, schema, store, generation, at)?;
    Ok(part.value)
}

/// The first block of a partition whose head stands at a position and ends at another.
fn first_block<K: Store>(
    alloc: Global,
    schema: &Schema,
    store: &mut K,
    generation: u32,
    head: u64,
    behind: u64,
) -> Result<BlockAt, DataError>
    requires head { head < 2 ^ 62 }
    requires behind { head ≤ behind }
    ensures near { IfOk result (λ block. block.limit < 2 ^ 63) }
    ensures size { IfSome (K.files store.old) (λ _. IfOk result (λ block. block.limit ≤ block.rows + 16384)) }
    ensures block { IfSome (K.files store.old) (λ m. Ends (FirstBlock schema.now.static_value
        (bytes_in (columns_of schema.now) m generation) head behind) result) }
    ensures files { K.files store.new ≡ K.files store.old }
    ensures reads { K.reads store.new ≤ K.reads store.old + 18 }
    ensures later { K.faults store.old ≤ K.faults store.new }
    ensures fault { result ≡ Err DataError.StoreFault → Rose (K.faults store.old) (K.faults store.new) }
{
    let limit = head + BLOCK_SIZE;
    if schema.static_value.is_none() {
        return Ok(BlockAt {
            rows: behind,
            limit,
        });
    }
    let part = static_part_at(alloc, schema, store, generation, behind)?;
    Ok(BlockAt {
        rows: part.end,
        limit,
    })
}

/// The offset of the block that a row index has for a key, where it has one.
fn offset_of<K: Store>(
    pages: &mut PageCache,
    store: &mut K,
    generation: u32,
    root: Option<u64>,
    key: &[u8],
) -> Result<Option<u64>, DataError>
    requires honest { Honest (K.files store.old) pages.old }
    ensures found { IfSome (K.files store.old) (λ m. Ends
        (λ found. found ≡ offset_in (bytes_of m (rows_id generation)) root key.now) result) }
    ensures most { IfOk result (λ offset. IfSome offset (λ o. o ≤ 2 ^ 63)) }
    ensures honest { Honest (K.files store.new) pages.new }
    ensures files { K.files store.new ≡ K.files store.old }
    ensures reads { IfSome (K.files store.old) (λ m. OnOk result (K.reads store.new ≤ K.reads store.old
        + length key.now + 1 + separator_length (bytes_of m (rows_id generation)) root key.now)) }
    ensures within { IfSome (K.files store.old) (λ m. (most : ℕ)
        → IsSeparatorWithin (bytes_of m (rows_id generation)) root key.now most
        → K.reads store.new ≤ K.reads store.old + (length key.now + 1 + most)) }
    ensures later { K.faults store.old ≤ K.faults store.new }
    ensures fault { result ≡ Err DataError.StoreFault → Rose (K.faults store.old) (K.faults store.new) }
{
    let Some(root) = root else {
        return Ok(None);
    };
    match floor(pages, store, rows_id(generation), root, key)? {
        Some(hit) => Ok(Some(hit.number.unsigned_abs())),
        None => Ok(None),
    }
}

/// The block in which a key's row is looked for.
pub fn block_of<K: Store>(
    alloc: Global,
    schema: &Schema,
    pages: &mut PageCache,
    store: &mut K,
    generation: u32,
    there: PartitionAt,
    behind: u64,
    key: &[u8],
) -> Result<BlockAt, DataError>
    requires honest { Honest (K.files store.old) pages.old }
    requires head { there.head < 2 ^ 62 }
    requires behind { there.head ≤ behind }
    ensures block { IfSome (K.files store.old) (λ m. Ends (FindsBlock
        (bytes_in (columns_of schema.now) m generation) there behind
        (offset_in (bytes_of m (rows_id generation)) there.root key.now)) result) }
    ensures near { IfOk result (λ block. block.limit < 2 ^ 64 - 2 ^ 18) }
    ensures size { IfSome (K.files store.old) (λ _. IfOk result (λ block. block.limit ≤ block.rows + 16384)) }
    ensures honest { Honest (K.files store.new) pages.new }
    ensures files { K.files store.new ≡ K.files store.old }
    ensures reads { IfSome (K.files store.old) (λ m. OnOk result (K.reads store.new ≤ K.reads store.old
        + length key.now + 19 + separator_length (bytes_of m (rows_id generation)) there.root key.now)) }
    ensures within { IfSome (K.files store.old) (λ m. (most : ℕ)
        → IsSeparatorWithin (bytes_of m (rows_id generation)) there.root key.now most
        → K.reads store.new ≤ K.reads store.old + (length key.now + 19 + most)) }
    ensures later { K.faults store.old ≤ K.faults store.new }
    ensures fault { result ≡ Err DataError.StoreFault → Rose (K.faults store.old) (K.faults store.new) }
{
    match offset_of(pages, store, generation, there.root, key)? {
        Some(offset) => {
            let rows = there.head + offset;
            Ok(BlockAt {
                rows,
                limit: rows + BLOCK_SIZE,
            })
        }
        None => first_block(alloc, schema, store, generation, there.head, behind),
    }
}
