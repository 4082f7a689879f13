//! All paths of a trie, one after the other, for the checker of an index. A walk holds the way down to the last path
//! that it gave, and goes on from there and not from the root.
ghost use Rattle.std.specs.Prelude.{◌≡◌, ◌≤◌, [], Err, None, IfOk, OnErr};
ghost use Rattle.outside.specs.Causes.{Rose};
ghost use Rattle.page_cache.specs.Pages.{Honest};
ghost use Rattle.bti_reader.specs.Walks.{last_given, last_after, next_of, FindsPath};
ghost use Rattle.bti_reader.specs.Ways.{Stands};

use crate::way::{PathHit, Way, after, first_into};
use data_file::DataError;
use key_types::{ByteList, ListOf, NoMemory};
use outside::{FileId, Store};
use page_cache::PageCache;
use std::alloc::Global;
use std::marker::Model;

/// A walk through the paths of a trie. Contracts see the trie's file and root, and the way down to the last path.
#[derive(Drop)]
pub struct Walk {
    alloc: Global,
    file: FileId,
    root: u64,
    way: Option<Way>,
}

impl Model for Walk {
    ghost use Rattle.std.specs.Prelude.{◌≡◌, ◌+◌, length, IfSome};
    ghost use Rattle.bti_reader.specs.Ways.{Progress};

    ghost Value = { Progress };

    ghost view = { λ w. record { file = w.file; root = w.root; way = w.way } };

    ghost invariant = { λ w. IfSome w.way (λ way. length way.nodes ≡ length way.path + 1) };
}

/// A copy of bytes.
fn copy_of(alloc: Global, bytes: &[u8]) -> Result<ByteList, NoMemory>
    ensures { IfOk result (λ made. made ≡ bytes.now) }
{
    let mut made = ByteList::new(alloc);
    made.extend(bytes)?;
    Ok(made)
}

impl Walk {
    /// A walk that has given no path.
    pub fn new(alloc: Global, file: FileId, root: u64) -> Walk
        ensures { result ≡ record { file = file; root = root; way = None } }
    {
        Walk {
            alloc,
            file,
            root,
            way: None,
        }
    }

    /// The next path of the trie, and `None` exactly where there is no further one. Then, and after an error, the walk
    /// stands where it stood.
    pub fn next<K: Store>(
        &mut self,
        cache: &mut PageCache,
        store: &mut K,
    ) -> Result<Option<PathHit>, DataError>
        requires honest { Honest (K.files store.old) cache.old }
        requires stands { Stands (K.files store.old) self.old }
        ensures found { FindsPath (K.files store.old) self.old.file [] (next_of self.old) result }
        ensures moved { IfOk result (λ hit. last_given self.new.way ≡ last_after (last_given self.old.way) hit) }
        ensures same { self.new ≡ record self.old { way = self.new.way } }
        ensures stands { Stands (K.files store.new) self.new }
        ensures err { OnErr result (self.new ≡ self.old) }
        ensures honest { Honest (K.files store.new) cache.new }
        ensures files { K.files store.new ≡ K.files store.old }
        ensures later { K.faults store.old ≤ K.faults store.new }
        ensures fault { result ≡ Err DataError.StoreFault → Rose (K.faults store.old) (K.faults store.new) }
    {
        let mut nodes = ListOf::new(self.alloc);
        let found = match &self.way {
            None => {
                let taken = ByteList::new(self.alloc);
                first_into(cache, store, self.file, self.root, taken, &mut nodes)?
            }
            Some(way) => after(
                self.alloc,
                cache,
                store,
                self.file,
                way.path.as_slice(),
                way.nodes.as_slice(),
                &mut nodes,
            )?,
        };
        let Some(hit) = found else {
            return Ok(None);
        };
        let path = copy_of(self.alloc, hit.path.as_slice())?;
        self.way = Some(Way { path, nodes });
        Ok(Some(hit))
    }
}
