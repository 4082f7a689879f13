//! The value of a key's row in a block of the data file, whose bytes are read page by page as far as the search asks
//! for them. A get calls this with the block in which the row has to be.
ghost use Rattle.std.specs.Prelude.{◌≡◌, ◌<◌, ◌≤◌, ◌+◌, ◌-◌, ◌%◌, ◌^◌, length};
ghost use Rattle.std.specs.Prelude.{Err, IfErr, IfOk, IfSome, IsTrue, OnOk, false, option_copied};
ghost use Rattle.outside.specs.Causes.{Rose};
ghost use Rattle.outside.specs.Files.{bytes_of};
ghost use Rattle.key_types.specs.Columns.{columns_of};
ghost use Rattle.page_cache.specs.Pages.{Honest};
ghost use Rattle.data_file.specs.Answers.{IsStop};
ghost use Rattle.data_file.specs.Held.{IsFront, IsRest};
ghost use Rattle.index_files.specs.Reading.{GrowsWithin};
ghost use Rattle.table_files.specs.Names.{data_id};
ghost use Rattle.table_reader.specs.Gets.{FindsInBlock, bytes_in};
ghost use Rattle.table_reader.specs.Reads.{Ends};

use crate::block::{Stop, find_row};
use crate::block_at::BlockAt;
use crate::place::{damaged, is_beyond};
use bti_nodes::Cause;
use data_file::DataError;
use index_files::add_from_page;
use key_types::{ByteList, NoMemory, Schema, ValueBytes};
use outside::{FileId, PAGE, Store};
use page_cache::PageCache;
use std::alloc::Global;
use table_files::data_id;

/// Puts the file's bytes up to the end of a page behind those that are held from `at` on, and answers whether the file
/// ended.
fn read_on<K: Store>(
    pages: &mut PageCache,
    store: &mut K,
    file: FileId,
    at: u64,
    held: &mut ByteList,
) -> Result<bool, DataError>
    requires honest { Honest (K.files store.old) pages.old }
    requires place { at + length held.old + 4096 < 2 ^ 64 }
    requires front { IsFront (K.files store.old) file at held.old }
    ensures front { OnOk result (IsFront (K.files store.new) file at held.new) }
    ensures on { GrowsWithin 4096 held.old result held.new }
    ensures grown { IfOk result (λ ended. ended ≡ false
        → length held.new ≡ length held.old + (4096 - (at + length held.old) % 4096)) }
    ensures ended { IfOk result (λ ended. IsTrue ended → IsRest (K.files store.new) file at held.new) }
    ensures stops { IfErr result IsStop }
    ensures honest { Honest (K.files store.new) pages.new }
    ensures files { K.files store.new ≡ K.files store.old }
    ensures reads { K.reads store.new ≤ K.reads store.old + 1 }
    ensures later { K.faults store.old ≤ K.faults store.new }
    ensures fault { result ≡ Err DataError.StoreFault → Rose (K.faults store.old) (K.faults store.new) }
{
    let place = at + held.len() as u64;
    let count = PAGE - (place % 4096) as usize;
    let before = held.len();
    add_from_page(pages, store, file, place, count, held)?;
    Ok(held.len() < before + count)
}

/// The value that was found, out of the bytes that are held.
fn owned(alloc: Global, found: Option<&[u8]>) -> Result<Option<ValueBytes>, NoMemory>
    ensures { IfOk result (λ value. value ≡ option_copied found.entry) }
{
    match found {
        Some(bytes) => {
            let mut value: ValueBytes = ByteList::new(alloc);
            value.extend(bytes)?;
            Ok(Some(value))
        }
        None => Ok(None),
    }
}

/// The value of the key's row in the block; `None` where the block has no row of the key. Damage is told exactly at the
/// first place before that row, or its place, at which neither a row nor an end begins.
pub fn row_value<K: Store>(
    alloc: Global,
    schema: &Schema,
    pages: &mut PageCache,
    store: &mut K,
    generation: u32,
    block: BlockAt,
    key: &[u8],
) -> Result<Option<ValueBytes>, DataError>
    requires honest { Honest (K.files store.old) pages.old }
    requires limit { block.limit < 2 ^ 64 - 2 ^ 18 }
    ensures value { IfSome (K.files store.old) (λ m. Ends
        (FindsInBlock (bytes_in (columns_of schema.now) m generation) key.now block) result) }
    ensures honest { Honest (K.files store.new) pages.new }
    ensures files { K.files store.new ≡ K.files store.old }
    ensures reads { block.limit ≤ block.rows + 16384 → K.reads store.new ≤ K.reads store.old + 22 }
    ensures later { K.faults store.old ≤ K.faults store.new }
    ensures fault { result ≡ Err DataError.StoreFault → Rose (K.faults store.old) (K.faults store.new) }
{
    let file = data_id(generation);
    if is_beyond(store, file, block.rows)? {
        return Err(damaged(block.rows, Cause::BadRow));
    }
    let mut held = ByteList::new(alloc);
    let mut passed = 0usize;
    let mut ended = false;
    'pages: loop {
        let (_, rest) = held.as_slice().split_at(passed);
        match find_row(schema, rest, block.rows + passed as u64, block.limit, key) {
            Ok(found) => return Ok(owned(alloc, found)?),
            Err(Stop::Bad(place)) => return Err(damaged(place, Cause::BadRow)),
            Err(Stop::Short(place)) => {
                if ended {
                    return Err(damaged(place, Cause::BadRow));
                }
                passed = (place - block.rows) as usize;
                ended = read_on(pages, store, file, block.rows, &mut held)?;
            }
        }
    }
}
