//! Checks of a trie of one path.
use super::*;
use bti_reader::{PathHit, Walk};
use data_walk::{Clash, Mismatch, Refusal};
use outside::{FileId, MemStore, Part};
use page_cache::PageCache;
use std::alloc::Global;
use std::test::*;

const PARTITIONS: FileId = FileId {
    generation: 1,
    part: Part::Partitions,
};

/// The trie of one path, whose root stands at 2, and whose number is 20.
const ONE_PATH: [u8; 4] = [0x01, 0x14, 0x12, 0x40];

/// A store with that trie.
fn store_of(alloc: Global) -> Result<MemStore, Fail> {
    let mut store = MemStore::new(alloc, Vec::new(alloc));
    let mut bytes = Vec::new(alloc);
    bytes.extend_from_slice(&ONE_PATH)?;
    store.put_file(PARTITIONS, bytes)?;
    Ok(store)
}

/// The clash of a path at a place.
fn clash(position: u64) -> Refusal {
    Refusal::Clashes(Mismatch {
        part: Part::Partitions,
        position,
        clash: Clash::Path,
    })
}

/// How many bytes the path has that was found, where its node stands, and its number.
fn seen(found: Result<PathHit, Refusal>) -> Result<(usize, u64, i64), Refusal> {
    let hit = found?;
    Ok((hit.path.len(), hit.node, hit.number))
}

#[test]
fn one_path_and_the_end(rt: HostRuntime) -> Result<(), Fail> {
    let alloc = rt.alloc();
    let mut store = store_of(alloc)?;
    let mut cache = PageCache::new(alloc)?;
    let mut paths = Walk::new(alloc, PARTITIONS, 2);
    let part = Part::Partitions;
    let found = next_path(&mut cache, &mut store, &mut paths, part, 2);
    assert_eq!(rt; seen(found), Ok((1, 0, 20)));
    let end = check_end(&mut cache, &mut store, &mut paths, part);
    assert_eq!(rt; end, Ok(()));
    Ok(())
}

#[test]
fn no_second_path(rt: HostRuntime) -> Result<(), Fail> {
    let alloc = rt.alloc();
    let mut store = store_of(alloc)?;
    let mut cache = PageCache::new(alloc)?;
    let mut paths = Walk::new(alloc, PARTITIONS, 2);
    let part = Part::Partitions;
    let first = next_path(&mut cache, &mut store, &mut paths, part, 2);
    assert_eq!(rt; seen(first), Ok((1, 0, 20)));
    let second = next_path(&mut cache, &mut store, &mut paths, part, 2);
    assert_eq!(rt; seen(second), Err(clash(2)));
    Ok(())
}

#[test]
fn one_path_too_many(rt: HostRuntime) -> Result<(), Fail> {
    let alloc = rt.alloc();
    let mut store = store_of(alloc)?;
    let mut cache = PageCache::new(alloc)?;
    let mut paths = Walk::new(alloc, PARTITIONS, 2);
    let end = check_end(&mut cache, &mut store, &mut paths, Part::Partitions);
    assert_eq!(rt; end, Err(clash(0)));
    Ok(())
}
