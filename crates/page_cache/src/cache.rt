//! The cache of pages, after the chunk cache that Cassandra reads its index files through. The readers of indexes
//! call it, and hand in the store each time. It holds at most 64 pages, and what it holds of a file is that page of
//! it as long as nobody changes the file.
ghost use Rattle.std.specs.Prelude.{◌≡◌, ◌<◌, ◌≤◌, ◌+◌, ◌^◌, [], length, OnOk, OnErr, IfOk, IfSome, IsSome, Some, Err};
ghost use Rattle.std.specs.Borrow.{sem};
ghost use Rattle.outside.specs.Causes.{Rose};
ghost use Rattle.outside.specs.Files.{bytes_of};
ghost use Rattle.outside.specs.Pages.{page_of};
ghost use Rattle.page_cache.specs.Lending.{EndsUsed};
ghost use Rattle.page_cache.specs.Pages.{Honest, Uses, page_in};

use crate::error::ReadError;
use crate::key::PageKey;
use key_types::{ByteList, NoMemory};
use lru::LruCache;
use outside::{FileId, Store};
use std::alloc::Global;
use std::marker::Model;
use std::num::NonZeroUsize;

/// How many bytes a page has.
const PAGE: usize = 4096;

/// How many pages a cache holds.
const PAGES: usize = 64;

/// The 64 pages that were used last. Contracts see them and their bytes, the last used first.
#[derive(Drop)]
pub struct PageCache {
    alloc: Global,
    pages: LruCache<PageKey, ByteList>,
}

impl Model for PageCache {
    ghost use Rattle.std.specs.Prelude.{◌≡◌};
    ghost use Rattle.page_cache.specs.Pages.{HeldPages};

    ghost Value = { HeldPages };

    ghost view = { λ c. c.pages.entries };

    ghost invariant = { λ c. c.pages.cap ≡ 64 };
}

/// The bytes of a page of a file, by one read of the store.
fn read_page<K: Store>(
    alloc: Global,
    store: &mut K,
    file: FileId,
    number: u64,
) -> Result<ByteList, ReadError>
    requires number { number < 2 ^ 52 }
    ensures page { IfSome (K.files store.old) (λ m. IfOk result (λ b. b ≡ page_of (bytes_of m file) number)) }
    ensures files { K.files store.new ≡ K.files store.old }
    ensures reads { K.reads store.new ≤ K.reads store.old + 1 }
    ensures later { K.faults store.old ≤ K.faults store.new }
    ensures fault { result ≡ Err ReadError.StoreFault → Rose (K.faults store.old) (K.faults store.new) }
{
    let mut buffer = [0u8; PAGE];
    let count = store.read(file, number * PAGE as u64, &mut buffer)?;
    let mut bytes = ByteList::new(alloc);
    bytes.extend(&buffer[..count])?;
    Ok(bytes)
}

impl PageCache {
    /// A cache without pages.
    pub fn new(alloc: Global) -> Result<PageCache, NoMemory>
        ensures { IfOk result (λ c. c ≡ []) }
    {
        let pages = LruCache::new(alloc, NonZeroUsize::new(PAGES).unwrap())?;
        Ok(PageCache { alloc, pages })
    }

    /// The bytes of a page that is held.
    fn held(&self, file: FileId, number: u64) -> &[u8]
        requires { IsSome (page_in file number self.now) }
        ensures { page_in file number self.now ≡ Some result.now }
    {
        let key = PageKey { file, number };
        match self.pages.peek(&key) {
            Some(bytes) => bytes.as_slice(),
            None => &[],
        }
    }

    /// Makes the page the last used, and reads it where it isn't held.
    fn load<K: Store>(&mut self, store: &mut K, file: FileId, number: u64) -> Result<(), ReadError>
        requires honest { Honest (K.files store.old) self.old }
        requires number { number < 2 ^ 52 }
        ensures held { OnOk result (IsSome (page_in file number self.new)) }
        ensures uses { Uses (K.files store.new) file number self.old result self.new }
        ensures files { K.files store.new ≡ K.files store.old }
        ensures reads { K.reads store.new ≤ K.reads store.old + 1 }
        ensures none_read { IsSome (page_in file number self.old) → K.reads store.new ≡ K.reads store.old }
        ensures later { K.faults store.old ≤ K.faults store.new }
        ensures fault { result ≡ Err ReadError.StoreFault → Rose (K.faults store.old) (K.faults store.new) }
    {
        let key = PageKey { file, number };
        // its clause is what says how many pages there are
        let _count = self.pages.len();
        if self.pages.promote(&key) {
            return Ok(());
        }
        let bytes = read_page(self.alloc, store, file, number)?;
        self.pages.put(key, bytes)?;
        Ok(())
    }

    /// The bytes of a page of a file: 4,096 of them, fewer or none where the file ends before. The store is read once
    /// at most, and not at all where the page is held. Afterwards the page is the last used; where 64 others were held
    /// and not it, the one that wasn't used for the longest time is gone. After an error the pages are as before.
    pub fn page<K: Store>(
        &mut self,
        store: &mut K,
        file: FileId,
        number: u64,
    ) -> Result<&[u8], ReadError>
        requires honest { Honest (K.files store.old) self.old }
        requires number { number < 2 ^ 52 }
        ensures* uses { sem 𝓛 (EndsUsed self.entry (K.files store.new) file number self.old result) }
        ensures page { IfSome (K.files store.old) (λ m. IfOk result (λ b. b.now ≡ page_of (bytes_of m file) number)) }
        ensures files { K.files store.new ≡ K.files store.old }
        ensures reads { K.reads store.new ≤ K.reads store.old + 1 }
        ensures none_read { IsSome (page_in file number self.old) → K.reads store.new ≡ K.reads store.old }
        ensures later { K.faults store.old ≤ K.faults store.new }
        ensures fault { result ≡ Err ReadError.StoreFault → Rose (K.faults store.old) (K.faults store.new) }
    {
        self.load(store, file, number)?;
        Ok(self.held(file, number))
    }
}
