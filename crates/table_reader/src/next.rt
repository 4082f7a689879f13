//! The next entry of a range, step by step. A table's scans call it.
ghost use Rattle.std.specs.Prelude.{◌≡◌, ◌≤◌, ◌+◌, ◌*◌, ℕ, length, max, Err, IfOk, IfSome};
ghost use Rattle.outside.specs.Causes.{Rose};
ghost use Rattle.outside.specs.Files.{bytes_of};
ghost use Rattle.key_types.specs.Columns.{columns_of};
ghost use Rattle.table_reader.specs.Ranges.{scanning_of, Gives};
ghost use Rattle.table_reader.specs.Scans.{GoesTo};
ghost use Rattle.table_reader.specs.Going.{ComesBy, GoesBy};
ghost use Rattle.table_reader.specs.Window.{most_ahead, page_size, Continues, read_to};

use crate::walker::{EntryStrings, Met, Walker};
use data_file::DataError;
use key_types::Schema;
use outside::{FileId, Store};
use std::alloc::Global;

/// The next entry of the range of a walk.
pub fn next_of<K: Store>(
    alloc: Global,
    schema: &Schema,
    store: &mut K,
    file: FileId,
    walk: &mut Walker,
    spare: &mut Option<EntryStrings>,
) -> Result<Option<EntryStrings>, DataError>
    ensures gives { IfSome (K.files store.old) (λ m. Continues (bytes_of m file) walk.old.window
        → Continues (bytes_of m file) walk.new.window
        × Gives (columns_of schema.now) (bytes_of m file) (scanning_of walk.old) (scanning_of walk.new) result) }
    ensures near { IfSome (K.files store.old) (λ m. Continues (bytes_of m file) walk.old.window → (place : ℕ)
        → ComesBy (columns_of schema.now) (bytes_of m file) (scanning_of walk.old) place
        → GoesBy (columns_of schema.now) (bytes_of m file) (scanning_of walk.new) place result) }
    ensures forward { walk.old.window.at ≤ walk.new.window.at }
    ensures further { IfOk result (λ found. IfSome found
        (GoesTo (columns_of schema.now) (scanning_of walk.old) (scanning_of walk.new))) }
    ensures limit { walk.new.window.limit ≡ walk.old.window.limit }
    ensures reads { page_size * K.reads store.new + read_to walk.old.window
        ≤ page_size * K.reads store.old + read_to walk.new.window + 2 * page_size }
    ensures ahead { length walk.new.window.bytes ≤ max (length walk.old.window.bytes) most_ahead }
    ensures files { K.files store.new ≡ K.files store.old }
    ensures later { K.faults store.old ≤ K.faults store.new }
    ensures fault { result ≡ Err DataError.StoreFault → Rose (K.faults store.old) (K.faults store.new) }
{
    'steps: loop {
        walk.window.fill(store, file)?;
        match walk.step(alloc, schema, spare)? {
            Met::Passed => {}
            Met::Given(entry) => return Ok(Some(entry)),
            Met::Done => return Ok(None),
        }
    }
}
