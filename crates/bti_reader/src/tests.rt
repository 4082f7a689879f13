//! Searches in the index files of worked rows.
ghost use Rattle.std.specs.Prelude.{◌≡◌};

use super::*;
use bti_nodes::{Cause, Damage};
use data_file::DataError;
use outside::{FileId, MemStore, Part, Store};
use page_cache::PageCache;
use std::alloc::Global;
use std::test::*;

const ROWS: FileId = FileId {
    generation: 1,
    part: Part::Rows,
};

const PARTITIONS: FileId = FileId {
    generation: 1,
    part: Part::Partitions,
};

/// The row index of one partition with forty rows in three blocks: its trie, whose root stands at 18, and its entry.
const FORTY_ROWS: [u8; 48] = [
    0x02, 0x43, 0x2B, 0x02, 0x86, 0x4E, 0x50, 0x02, 0x11, 0x22, 0x06, 0x03, 0x16, 0x00, 0x12, 0x00,
    0x12, 0x80, 0x12, 0x40, 0x00, 0x06, 0x40, 0x80, 0x00, 0x00, 0x01, 0x38, 0x00, 0x00, 0x00, 0x00,
    0x00, 0x00, 0x00, 0x00, 0x00, 0x00, 0x00, 0x00, 0x00, 0x00, 0x00, 0x12, 0x00, 0x00, 0x00, 0x03,
];

/// The trie of three blocks, whose root stands at 10; one of its inner nodes has a payload.
const THREE_BLOCKS: [u8; 12] = [
    0x02, 0x80, 0x1A, 0x22, 0x63, 0x03, 0x40, 0x11, 0x15, 0x62, 0x12, 0x40,
];

/// The partition index of one partition of one block, whose root stands at 2; and the same with other bytes there.
const ONE_PUT: [u8; 4] = [0x01, 0xFF, 0x12, 0x40];

const DAMAGED: [u8; 4] = [0x01, 0xFF, 0x50, 0x00];

/// A store with one file.
fn store_of(alloc: Global, file: FileId, bytes: &[u8]) -> Result<MemStore, Fail> {
    let mut store = MemStore::new(alloc, Vec::new(alloc));
    let mut copy = Vec::new(alloc);
    copy.extend_from_slice(bytes)?;
    store.put_file(file, copy)?;
    Ok(store)
}

/// The answer for a path.
fn hit(path_len: usize, node: u64, number: i64) -> Result<Option<Hit>, DataError> {
    Ok(Some(Hit {
        path_len,
        node,
        number,
    }))
}

/// The answer for damage.
fn damaged(part: Part, position: u64, cause: Cause) -> Result<Option<Hit>, DataError> {
    Err(DataError::Damaged(Damage {
        part,
        position,
        cause,
    }))
}

/// The clustering string of a small number.
fn row(number: u8) -> [u8; 6] {
    [0x40, 0x80, 0, 0, number, 0x38]
}

#[test]
fn forty_rows(rt: HostRuntime) -> Result<(), Fail> {
    let alloc = rt.alloc();
    let mut store = store_of(alloc, ROWS, &FORTY_ROWS)?;
    let mut cache = PageCache::new(alloc)?;
    let found = floor(&mut cache, &mut store, ROWS, 18, &row(16));
    assert_eq!(rt; found, Ok(None));
    let found = floor(&mut cache, &mut store, ROWS, 18, &row(33));
    assert_eq!(rt; found, hit(5, 0, 17195));
    let found = floor(&mut cache, &mut store, ROWS, 18, &row(39));
    assert_eq!(rt; found, hit(5, 3, 34382));
    let found = ceiling(&mut cache, &mut store, ROWS, 18, &row(18));
    assert_eq!(rt; found, hit(5, 3, 34382));
    let found = floor(&mut cache, &mut store, ROWS, 48, &row(0));
    assert_eq!(rt; found, damaged(Part::Rows, 48, Cause::PastPage));
    Ok(())
}

#[test]
fn three_blocks(rt: HostRuntime) -> Result<(), Fail> {
    let alloc = rt.alloc();
    let mut store = store_of(alloc, ROWS, &THREE_BLOCKS)?;
    let mut cache = PageCache::new(alloc)?;
    let found = exact(&mut cache, &mut store, ROWS, 10, &[0x40, 0x62, 0x63, 0]);
    assert_eq!(rt; found, hit(2, 3, 16401));
    let found = floor(&mut cache, &mut store, ROWS, 10, &[0x40, 0x62, 0x63, 0]);
    assert_eq!(rt; found, hit(3, 0, 32794));
    let found = before(&mut cache, &mut store, ROWS, 10, &[0x40, 0x62, 0x63]);
    assert_eq!(rt; found, hit(2, 3, 16401));
    let found = ceiling(&mut cache, &mut store, ROWS, 10, &[0x40, 0x63]);
    assert_eq!(rt; found, Ok(None));
    Ok(())
}

#[test]
fn damaged_partitions(rt: HostRuntime) -> Result<(), Fail> {
    let alloc = rt.alloc();
    let mut store = store_of(alloc, PARTITIONS, &ONE_PUT)?;
    let mut cache = PageCache::new(alloc)?;
    let found = exact(&mut cache, &mut store, PARTITIONS, 2, &row(1));
    assert_eq!(rt; found, hit(1, 0, -1));
    let mut store = store_of(alloc, PARTITIONS, &DAMAGED)?;
    let mut cache = PageCache::new(alloc)?;
    let found = exact(&mut cache, &mut store, PARTITIONS, 2, &row(1));
    assert_eq!(rt; found, damaged(Part::Partitions, 2, Cause::BadOrder));
    Ok(())
}

/// How many bytes the path has that was found, where its node stands, and its number.
fn seen(found: Result<Option<PathHit>, DataError>) -> (usize, u64, i64) {
    match found {
        Ok(Some(hit)) => (hit.path.len(), hit.node, hit.number),
        _ => (0, 0, 0),
    }
}

#[test]
fn walk_of_three_blocks(rt: HostRuntime) -> Result<(), Fail> {
    let alloc = rt.alloc();
    let mut store = store_of(alloc, ROWS, &THREE_BLOCKS)?;
    let mut cache = PageCache::new(alloc)?;
    let mut walk = Walk::new(alloc, ROWS, 10);
    let found = walk.next(&mut cache, &mut store);
    assert_eq!(rt; seen(found), (2, 3, 16401));
    let found = walk.next(&mut cache, &mut store);
    assert_eq!(rt; seen(found), (3, 0, 32794));
    let found = walk.next(&mut cache, &mut store);
    assert_eq!(rt; seen(found), (0, 0, 0));
    Ok(())
}
