//! The packer: it takes ascending keys with payloads, and appends the trie of them in pages (after Cassandra's
//! `IncrementalTrieWriterPageAware`).
ghost use Rattle.std.specs.Prelude.{◌≡◌, ◌<◌, ◌≤◌, ◌+◌, ◌^◌, length, IfOk, Err};
ghost use Rattle.outside.specs.Causes.{Rose};
ghost use Rattle.outside.specs.Files.{Appends};
ghost use Rattle.bti_nodes.specs.Spelling.{bytes_in};
ghost use Rattle.page_packer.specs.Packing.{Packing, nothing_packed, laid, last_bytes};
ghost use Rattle.page_packer.specs.Packs.{Packs, Takes, HasEntries, AddsEntry};

use crate::append::append_some;
use crate::boxes::{Link, NO_PAYLOAD};
use crate::edge::{Level, Whole};
use crate::grow::{add_more, close_all};
use crate::work::Work;
use bti_nodes::{PackError, Payload};
use outside::{FileId, Store};
use std::alloc::Global;
use std::mem;

/// Packs a trie into a file. It appends a subtree as soon as it is known to stand, and holds the heavy nodes along the
/// last key, whose other children stand, and one light subtree below them. After an error no call may follow.
#[derive(Drop)]
pub struct Packer {
    alloc: Global,
    file: FileId,
    start: u64,
    end_: u64,
    bytes: u64,
    levels: Vec<Level>,
    held: Whole,
    work: Work,
}

/// Where the trie stands: the position of its root, and the position behind its last byte.
#[derive(Clone, Copy, Debug, PartialEq, Eq)]
pub struct Packed {
    pub root: u64,
    pub end: u64,
}

impl Packer {
    /// A packer whose bytes begin at that position of the file, which is the file's length.
    pub fn new(alloc: Global, file: FileId, start: u64) -> Packer
        requires { start < 2 ^ 60 }
        ensures { Packs result (nothing_packed file start) }
    {
        Packer {
            alloc,
            file,
            start,
            end_: start,
            bytes: 0,
            levels: Vec::new(alloc),
            held: Whole {
                payload: NO_PAYLOAD,
                children: Link::End,
            },
            work: Work::new(alloc),
        }
    }

    /// Adds a key that is above all that were added, with its payload of one to seven bytes, and appends what is known to
    /// stand then. The keys have together at most 2^30 bytes.
    ///
    /// Errors: `StoreFault` where the store failed, `NoMemory`.
    pub fn add<K: Store>(
        &mut self,
        key: &[u8],
        payload: Payload,
        store: &mut K,
    ) -> Result<(), PackError>
        requires key { Takes self.old key.now }
        requires paid { 0 < payload.count }
        requires short { payload.count ≤ 7 }
        ensures added { AddsEntry self.old self.new (K.files store.old) (K.files store.new) result key.now (bytes_in payload) }
        ensures reads { K.reads store.new ≡ K.reads store.old }
        ensures later { K.faults store.old ≤ K.faults store.new }
        ensures fault { result ≡ Err PackError.StoreFault → Rose (K.faults store.old) (K.faults store.new) }
    {
        let empty = Whole {
            payload: NO_PAYLOAD,
            children: Link::End,
        };
        let held = mem::replace(&mut self.held, empty);
        self.held = add_more(
            self.alloc,
            &mut self.levels,
            held,
            key,
            payload,
            self.end_,
            &mut self.work,
        )?;
        append_some(self.file, self.work.out.as_slice(), store)?;
        self.end_ += self.work.out.len() as u64;
        self.bytes += key.len() as u64;
        self.work.out.truncate(0);
        Ok(())
    }

    /// Appends the rest of the trie of the keys that were added, of which there is at least one, and answers where the
    /// trie stands. After an error a prefix of that rest was appended.
    ///
    /// Errors: `StoreFault` where the store failed, `NoMemory`.
    pub fn finish<K: Store>(self, store: &mut K) -> Result<Packed, PackError>
        requires { HasEntries self }
        ensures root { IfOk result (λ packed. (p : Packing) → Packs self p → packed.root ≡ (laid p).root) }
        ensures end { IfOk result (λ packed. (p : Packing) → Packs self p → packed.end ≡ p.start + length (laid p).bytes) }
        ensures written { (p : Packing) → Packs self p → Appends (K.files store.old) (K.files store.new) p.file result (last_bytes p) }
        ensures reads { K.reads store.new ≡ K.reads store.old }
        ensures later { K.faults store.old ≤ K.faults store.new }
        ensures fault { result ≡ Err PackError.StoreFault → Rose (K.faults store.old) (K.faults store.new) }
    {
        let Packer {
            alloc,
            file,
            end_,
            mut levels,
            held,
            mut work,
            ..
        } = self;
        let root = close_all(alloc, &mut levels, held, end_, &mut work)?;
        store.append(file, work.out.as_slice())?;
        Ok(Packed {
            root,
            end: end_ + work.out.len() as u64,
        })
    }
}
