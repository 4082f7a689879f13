//! Bytes of a file from a place on, through the cache of pages. The readers of the footer, of entries and of heads call
//! it, since what they read may stand on two pages, and whoever reads on from a place page by page.
ghost use Rattle.std.specs.Prelude.{◌≡◌, ◌<◌, ◌≤◌, ◌+◌, ◌%◌, ◌^◌, ◌++◌, length, take, drop, Err, IfErr, IfOk, IfSome};
ghost use Rattle.outside.specs.Causes.{Rose};
ghost use Rattle.outside.specs.Files.{bytes_of};
ghost use Rattle.page_cache.specs.Pages.{Honest};
ghost use Rattle.page_cache.specs.declared.error.ReadError.TheVariants as read;
ghost use Rattle.data_file.specs.Answers.{IsStop};
ghost use Rattle.index_files.specs.Reading.{Adds, GrowsWithin};

use data_file::DataError;
use key_types::ByteList;
use outside::{FileId, PAGE, Store};
use page_cache::{PageCache, ReadError};
use std::alloc::Global;

/// The bytes of a page from a place on, as many as asked for or as there are.
fn part_of(page: &[u8], from: usize, count: usize) -> &[u8]
    ensures { result.now ≡ take count (drop from page.now) }
{
    if page.len() <= from {
        return &[];
    }
    let (_, rest) = page.split_at(from);
    if rest.len() <= count {
        return rest;
    }
    let (part, _) = rest.split_at(count);
    part
}

/// Why a page was not had.
fn stopped(e: ReadError) -> DataError
    ensures stops { IsStop result }
    ensures fault { result ≡ DataError.StoreFault → e ≡ read.StoreFault }
{
    match e {
        ReadError::StoreFault => DataError::StoreFault,
        ReadError::NoMemory => DataError::NoMemory,
    }
}

/// Puts the file's bytes from a place on behind those that are held, as many as asked for or as there are. They stand
/// on one page, which is read where it isn't held.
pub fn add_from_page<K: Store>(
    cache: &mut PageCache,
    store: &mut K,
    file: FileId,
    at: u64,
    count: usize,
    held: &mut ByteList,
) -> Result<(), DataError>
    requires honest { Honest (K.files store.old) cache.old }
    requires page { at % 4096 + count ≤ 4096 }
    ensures added { Adds (K.files store.old) file at count held.old result held.new }
    ensures on { GrowsWithin count held.old result held.new }
    ensures stops { IfErr result IsStop }
    ensures honest { Honest (K.files store.new) cache.new }
    ensures files { K.files store.new ≡ K.files store.old }
    ensures reads { K.reads store.new ≤ K.reads store.old + 1 }
    ensures later { K.faults store.old ≤ K.faults store.new }
    ensures fault { result ≡ Err DataError.StoreFault → Rose (K.faults store.old) (K.faults store.new) }
{
    match cache.page(store, file, at / 4096) {
        Ok(page) => {
            held.extend(part_of(page, (at % 4096) as usize, count))?;
            Ok(())
        }
        Err(e) => Err(stopped(e)),
    }
}

/// The bytes of a file from a place on, as many as asked for, or fewer where the file ends before. At most two pages
/// are read.
pub fn read_span<K: Store>(
    alloc: Global,
    cache: &mut PageCache,
    store: &mut K,
    file: FileId,
    at: u64,
    count: usize,
) -> Result<ByteList, DataError>
    requires honest { Honest (K.files store.old) cache.old }
    requires place { at < 2 ^ 63 }
    requires pages { count ≤ 4096 }
    ensures bytes { IfSome (K.files store.old) (λ m. IfOk result (λ b. b ≡ take count (drop at (bytes_of m file)))) }
    ensures stops { IfErr result IsStop }
    ensures honest { Honest (K.files store.new) cache.new }
    ensures files { K.files store.new ≡ K.files store.old }
    ensures reads { K.reads store.new ≤ K.reads store.old + 2 }
    ensures later { K.faults store.old ≤ K.faults store.new }
    ensures fault { result ≡ Err DataError.StoreFault → Rose (K.faults store.old) (K.faults store.new) }
{
    let mut held = ByteList::new(alloc);
    let on_page = PAGE - (at % 4096) as usize;
    if count <= on_page {
        add_from_page(cache, store, file, at, count, &mut held)?;
        return Ok(held);
    }
    add_from_page(cache, store, file, at, on_page, &mut held)?;
    let next = at + on_page as u64;
    add_from_page(cache, store, file, next, count - on_page, &mut held)?;
    Ok(held)
}
