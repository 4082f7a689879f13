//! The next path of a trie, which is to be there, and the end of a trie. The checks of index files ask these.
ghost use Rattle.std.specs.Prelude.{◌≡◌, ◌≤◌, Err, IfSome};
ghost use Rattle.outside.specs.Causes.{Rose};
ghost use Rattle.outside.specs.Files.{bytes_of};
ghost use Rattle.page_cache.specs.Pages.{Honest};
ghost use Rattle.data_file.specs.declared.reading.DataError.TheVariants.{StoreFault};
ghost use Rattle.bti_reader.specs.Walks.{last_given};
ghost use Rattle.bti_reader.specs.Ways.{Stands};
ghost use Rattle.data_walk.specs.declared.refusal.Refusal.TheVariants.{Unread};
ghost use Rattle.path_check.specs.Paths.{EndsPaths, GivesPath};

use bti_reader::{PathHit, Walk};
use data_walk::{Clash, Refusal, clash_at};
use outside::{Part, Store};
use page_cache::PageCache;

/// The next path of a trie with its root there, which is to have one.
pub fn next_path<K: Store>(
    cache: &mut PageCache,
    store: &mut K,
    paths: &mut Walk,
    part: Part,
    root: u64,
) -> Result<PathHit, Refusal>
    requires part { paths.old.file.part ≡ part }
    requires root { paths.old.root ≡ root }
    requires honest { Honest (K.files store.old) cache.old }
    requires stands { Stands (K.files store.old) paths.old }
    ensures told { IfSome (K.files store.old) (λ m. GivesPath part (bytes_of m paths.old.file) root
        (last_given paths.old.way) (last_given paths.new.way) result) }
    ensures same { paths.new ≡ record paths.old { way = paths.new.way } }
    ensures stands { Stands (K.files store.new) paths.new }
    ensures honest { Honest (K.files store.new) cache.new }
    ensures files { K.files store.new ≡ K.files store.old }
    ensures later { K.faults store.old ≤ K.faults store.new }
    ensures fault { result ≡ Err (Unread StoreFault) → Rose (K.faults store.old) (K.faults store.new) }
{
    match paths.next(cache, store)? {
        Some(hit) => Ok(hit),
        None => Err(clash_at(part, root, Clash::Path)),
    }
}

/// Looks at the end of a trie, behind whose last path there is to be no other.
pub fn check_end<K: Store>(
    cache: &mut PageCache,
    store: &mut K,
    paths: &mut Walk,
    part: Part,
) -> Result<(), Refusal>
    requires part { paths.old.file.part ≡ part }
    requires honest { Honest (K.files store.old) cache.old }
    requires stands { Stands (K.files store.old) paths.old }
    ensures told { IfSome (K.files store.old) (λ m. EndsPaths part (bytes_of m paths.old.file) paths.old.root
        (last_given paths.old.way) result) }
    ensures honest { Honest (K.files store.new) cache.new }
    ensures files { K.files store.new ≡ K.files store.old }
    ensures later { K.faults store.old ≤ K.faults store.new }
    ensures fault { result ≡ Err (Unread StoreFault) → Rose (K.faults store.old) (K.faults store.new) }
{
    match paths.next(cache, store)? {
        Some(hit) => Err(clash_at(part, hit.node, Clash::Path)),
        None => Ok(()),
    }
}
