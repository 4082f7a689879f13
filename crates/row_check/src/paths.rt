//! The next path of a row index, beside a block of its partition. The check of blocks asks for it.
ghost use Rattle.std.specs.Prelude.{◌≡◌, ◌≤◌, Err, IfSome};
ghost use Rattle.std.specs.declared.cmp.Ordering.TheVariants.{Less};
ghost use Rattle.outside.specs.declared.store.Part.TheVariants.{Rows};
ghost use Rattle.outside.specs.Causes.{Rose};
ghost use Rattle.outside.specs.Files.{bytes_of};
ghost use Rattle.key_types.specs.Table.{string_cmp};
ghost use Rattle.page_cache.specs.Pages.{Honest};
ghost use Rattle.data_file.specs.declared.reading.DataError.TheVariants.{StoreFault};
ghost use Rattle.bti_reader.specs.Walks.{last_given};
ghost use Rattle.bti_reader.specs.Ways.{Stands};
ghost use Rattle.data_walk.specs.declared.refusal.Refusal.TheVariants.{Unread};
ghost use Rattle.row_check.specs.Blocks.{separator, ChecksBlock, ComparesPath};

use bti_reader::{PathHit, Walk};
use byte_order::separator_len;
use data_walk::{Clash, Refusal, clash_at};
use outside::{Part, Store};
use page_cache::PageCache;
use path_check::{next_path, number_clash};

/// The shortest prefix of the string of a block's first row that is above the row before it.
fn separator<'b>(before: &[u8], first: &'b [u8]) -> &'b [u8]
    requires { string_cmp before.now first.now ≡ Less }
    ensures { result.now ≡ separator before.now first.now }
{
    let (path, _) = first.split_at(separator_len(before, first));
    path
}

/// Looks at a path of a row index and at its number, which is to be the block's offset.
fn compare_path(hit: &PathHit, path: &[u8], offset: u64) -> Result<(), Refusal>
    ensures { ComparesPath hit.now.path hit.now.node hit.now.number path.now offset result }
{
    if hit.path.as_slice() != path {
        return Err(clash_at(Part::Rows, hit.node, Clash::Path));
    }
    let found = hit.number as i128;
    let wanted = offset as i128;
    if found != wanted {
        return Err(number_clash(Part::Rows, hit.node, found, wanted));
    }
    Ok(())
}

/// Looks at the next path of a row index with its root there, which is to be that of a block of these strings and this
/// offset.
pub fn check_block<K: Store>(
    cache: &mut PageCache,
    store: &mut K,
    paths: &mut Walk,
    root: u64,
    before: &[u8],
    first: &[u8],
    offset: u64,
) -> Result<(), Refusal>
    requires above { string_cmp before.now first.now ≡ Less }
    requires part { paths.old.file.part ≡ Rows }
    requires root { paths.old.root ≡ root }
    requires honest { Honest (K.files store.old) cache.old }
    requires stands { Stands (K.files store.old) paths.old }
    ensures told { IfSome (K.files store.old) (λ m. ChecksBlock (bytes_of m paths.old.file) root
        (last_given paths.old.way) before.now first.now offset (last_given paths.new.way) result) }
    ensures same { paths.new ≡ record paths.old { way = paths.new.way } }
    ensures stands { Stands (K.files store.new) paths.new }
    ensures honest { Honest (K.files store.new) cache.new }
    ensures files { K.files store.new ≡ K.files store.old }
    ensures later { K.faults store.old ≤ K.faults store.new }
    ensures fault { result ≡ Err (Unread StoreFault) → Rose (K.faults store.old) (K.faults store.new) }
{
    let hit = next_path(cache, store, paths, Part::Rows, root)?;
    compare_path(&hit, separator(before, first), offset)
}
