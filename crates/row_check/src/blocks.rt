//! The row index of one partition, beside the blocks of that partition in Data.db. The check of entries calls it.
ghost use Rattle.std.specs.Prelude.{◌≡◌, ◌≤◌, None, Err, length, IfSome};
ghost use Rattle.outside.specs.declared.store.Part.TheVariants.{Rows};
ghost use Rattle.outside.specs.Causes.{Rose};
ghost use Rattle.outside.specs.Files.{bytes_of};
ghost use Rattle.key_types.specs.Columns.{columns_of};
ghost use Rattle.page_cache.specs.Pages.{Honest};
ghost use Rattle.data_file.specs.declared.reading.DataError.TheVariants.{StoreFault};
ghost use Rattle.bti_reader.specs.Walks.{last_given};
ghost use Rattle.bti_reader.specs.Ways.{Stands};
ghost use Rattle.table_files.specs.Names.{data_id, rows_id};
ghost use Rattle.table_reader.specs.Window.{Continues};
ghost use Rattle.data_walk.specs.declared.refusal.Refusal.TheVariants.{Unread};
ghost use Rattle.data_walk.specs.DataWalk.{place_of, IsPlace};
ghost use Rattle.row_check.specs.Blocks.{ChecksBlocks, ComparesBlocks};

use crate::paths::check_block;
use bti_nodes::Cause;
use bti_reader::Walk;
use data_walk::{DataWalk, Refusal, data_size};
use key_types::Schema;
use outside::{FileId, Part, Store};
use page_cache::PageCache;
use path_check::{check_end, damage_at};
use std::alloc::Global;
use table_files::{data_id, rows_id};

/// Goes over the rows of the partition that a walk is in, beside a row index with its root there.
fn compare_blocks<K: Store>(
    schema: &Schema,
    cache: &mut PageCache,
    store: &mut K,
    file: FileId,
    walk: &mut DataWalk,
    paths: &mut Walk,
    root: u64,
) -> Result<(), Refusal>
    requires place { IsPlace (place_of walk.old) }
    requires part { paths.old.file.part ≡ Rows }
    requires root { paths.old.root ≡ root }
    requires honest { Honest (K.files store.old) cache.old }
    requires stands { Stands (K.files store.old) paths.old }
    ensures told { IfSome (K.files store.old) (λ m. Continues (bytes_of m file) walk.old.window
        → ComparesBlocks (columns_of schema.now) (bytes_of m file) (bytes_of m paths.old.file) root (place_of walk.old)
        (last_given paths.old.way) result) }
    ensures honest { Honest (K.files store.new) cache.new }
    ensures files { K.files store.new ≡ K.files store.old }
    ensures later { K.faults store.old ≤ K.faults store.new }
    ensures fault { result ≡ Err (Unread StoreFault) → Rose (K.faults store.old) (K.faults store.new) }
{
    'offsets: while let Some(offset) = walk.next_block(schema, store, file)? {
        let before = walk.before.as_slice();
        let first = walk.row.as_slice();
        check_block(cache, store, paths, root, before, first, offset)?;
    }
    check_end(cache, store, paths, Part::Rows)
}

/// Goes through the row index with its root there, beside the blocks of the partition at a position of Data.db.
pub fn check_blocks<K: Store>(
    alloc: Global,
    schema: &Schema,
    cache: &mut PageCache,
    store: &mut K,
    generation: u32,
    position: u64,
    root: u64,
) -> Result<(), Refusal>
    requires honest { Honest (K.files store.old) cache.old }
    ensures told { IfSome (K.files store.old) (λ m. position ≤ length (bytes_of m (data_id generation))
        → ChecksBlocks (columns_of schema.now) (bytes_of m (data_id generation)) (bytes_of m (rows_id generation))
        position root result) }
    ensures honest { Honest (K.files store.new) cache.new }
    ensures files { K.files store.new ≡ K.files store.old }
    ensures later { K.faults store.old ≤ K.faults store.new }
    ensures fault { result ≡ Err (Unread StoreFault) → Rose (K.faults store.old) (K.faults store.new) }
{
    let file = data_id(generation);
    let limit = data_size(store, generation)?;
    let mut walk = DataWalk::new(alloc, position.min(limit), limit);
    let Some(_has_static) = walk.enter(schema, store, file)? else {
        return Err(damage_at(Part::Data, position, Cause::BadHead));
    };
    let mut paths = Walk::new(alloc, rows_id(generation), root);
    compare_blocks(schema, cache, store, file, &mut walk, &mut paths, root)
}
