//! Pages of a file in memory.
ghost use Rattle.std.specs.Prelude.{◌≡◌, ◌<◌, ◌^◌};
ghost use Rattle.page_cache.specs.Pages.{Honest};

use super::*;
use outside::{FileId, MemStore, Part, Store};
use std::test::*;

const ROWS: FileId = FileId {
    generation: 1,
    part: Part::Rows,
};

/// How many bytes a page has, and its first byte.
fn seen<K: Store>(
    cache: &mut PageCache,
    store: &mut K,
    number: u64,
) -> Result<(usize, Option<u8>), ReadError>
    requires honest { Honest (K.files store.old) cache.old }
    requires number { number < 2 ^ 52 }
    ensures honest { Honest (K.files store.new) cache.new }
{
    let page = cache.page(store, ROWS, number)?;
    Ok((page.len(), page.first().copied()))
}

#[test]
fn pages_are_those_of_the_file(rt: HostRuntime) -> Result<(), Fail> {
    let alloc = rt.alloc();
    let mut store = MemStore::new(alloc, Vec::new(alloc));
    let mut bytes = vec![in alloc; 7u8; 4096]?;
    bytes.push(9)?;
    let made = store.put_file(ROWS, bytes);
    assert_eq!(rt; made, Ok(()));
    let mut cache = PageCache::new(alloc)?;
    assert_eq!(rt; seen(&mut cache, &mut store, 1), Ok((1, Some(9))));
    assert_eq!(rt; seen(&mut cache, &mut store, 0), Ok((4096, Some(7))));
    assert_eq!(rt; seen(&mut cache, &mut store, 2), Ok((0, None)));
    assert_eq!(rt; seen(&mut cache, &mut store, 1), Ok((1, Some(9))));
    Ok(())
}
