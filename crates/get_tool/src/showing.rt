//! What the command shows of a key, from its text to the line.
ghost use Rattle.std.specs.Prelude.{◌≡◌, ◌≤◌, Err, IfSome, IsSome};
ghost use Rattle.outside.specs.Causes.{Rose};
ghost use Rattle.key_types.specs.Columns.{columns_of};
ghost use Rattle.table_reader.specs.Gets.{Gets, bytes_in};
ghost use Rattle.table_reader.specs.Opened.{StandsIn};
ghost use Rattle.table_reader.specs.Reads.{EndsCall, IsAlwaysBounded};
ghost use Rattle.get_tool.specs.ShowReads.{FindsNamedWithin, FindsWithin, ShowsWithin};
ghost use Rattle.get_tool.specs.Shown.{Shows, ShowsFound, ShowsIn, ShowsLine};

use crate::asked::{AskedKey, read_key};
use crate::error::GetError;
use crate::line::found_line;
use key_types::{ByteList, ValueBytes};
use outside::Store;
use std::alloc::Global;
use table_reader::{OpenTable, TableFault};

/// What a table whose footer is loaded has at a key.
fn value_at<K: Store>(
    table: &mut OpenTable,
    store: &mut K,
    key: &AskedKey,
) -> Result<Option<ValueBytes>, TableFault>
    requires stands { StandsIn (K.files store.old) table.old }
    requires loaded { IsSome table.old.footer }
    ensures value { IfSome (K.files store.old) (λ m. IfSome table.old.footer (λ footer. EndsCall
        (Gets (bytes_in (columns_of table.old.schema) m table.old.generation) footer key.now.partition
        key.now.clustering) result)) }
    ensures reads { IfSome (K.files store.old) (λ m. IfSome table.old.footer (λ footer. IsAlwaysBounded
        (bytes_in (columns_of table.old.schema) m table.old.generation) footer key.now.partition key.now.clustering
        (K.reads store.old) (K.reads store.new))) }
    ensures schema { table.new.schema ≡ table.old.schema }
    ensures files { K.files store.new ≡ K.files store.old }
    ensures later { K.faults store.old ≤ K.faults store.new }
    ensures fault { result ≡ Err TableFault.StoreFault → Rose (K.faults store.old) (K.faults store.new) }
{
    let partition = key.partition.as_slice();
    match &key.clustering {
        Some(clustering) => table.get(store, partition, Some(clustering.as_slice())),
        None => table.get(store, partition, None),
    }
}

/// What an open table has at a key.
fn found_at<K: Store>(
    table: &mut OpenTable,
    store: &mut K,
    key: &AskedKey,
) -> Result<Option<ValueBytes>, GetError>
    requires stands { StandsIn (K.files store.old) table.old }
    ensures found { IfSome (K.files store.old) (λ m. ShowsFound m table.old.generation
        (columns_of table.old.schema) key.now result) }
    ensures reads { IfSome (K.files store.old) (λ m. FindsWithin m table.old.generation
        (columns_of table.old.schema) 66 key.now (K.reads store.old) (K.reads store.new)) }
    ensures schema { table.new.schema ≡ table.old.schema }
    ensures files { K.files store.new ≡ K.files store.old }
    ensures later { K.faults store.old ≤ K.faults store.new }
    ensures fault { result ≡ Err GetError.StoreFault → Rose (K.faults store.old) (K.faults store.new) }
{
    match table.load_footer(store) {
        Ok(()) => {}
        Err(e) => return Err(GetError::from(e)),
    }
    match value_at(table, store, key) {
        Ok(value) => Ok(value),
        Err(e) => Err(GetError::from(e)),
    }
}

/// The line of what an open table has at a key.
fn line_at<K: Store>(
    alloc: Global,
    table: &mut OpenTable,
    store: &mut K,
    key: &AskedKey,
) -> Result<ByteList, GetError>
    requires stands { StandsIn (K.files store.old) table.old }
    ensures line { IfSome (K.files store.old) (λ m. ShowsLine m table.old.generation
        (columns_of table.old.schema) key.now result) }
    ensures reads { IfSome (K.files store.old) (λ m. FindsWithin m table.old.generation
        (columns_of table.old.schema) 66 key.now (K.reads store.old) (K.reads store.new)) }
    ensures files { K.files store.new ≡ K.files store.old }
    ensures later { K.faults store.old ≤ K.faults store.new }
    ensures fault { result ≡ Err GetError.StoreFault → Rose (K.faults store.old) (K.faults store.new) }
{
    let found = match found_at(table, store, key) {
        Ok(found) => found,
        Err(e) => return Err(e),
    };
    match found_line(alloc, table.schema(), key, found) {
        Ok(line) => Ok(line),
        Err(e) => Err(GetError::from(e)),
    }
}

/// What an open table shows of the text of a key.
fn shown_in<K: Store>(
    alloc: Global,
    table: &mut OpenTable,
    store: &mut K,
    text: &[u8],
) -> Result<ByteList, GetError>
    requires stands { StandsIn (K.files store.old) table.old }
    ensures shows { IfSome (K.files store.old) (λ m. ShowsIn m table.old.generation
        (columns_of table.old.schema) text.now result) }
    ensures reads { IfSome (K.files store.old) (λ m. FindsNamedWithin m table.old.generation
        (columns_of table.old.schema) 66 text.now (K.reads store.old) (K.reads store.new)) }
    ensures files { K.files store.new ≡ K.files store.old }
    ensures later { K.faults store.old ≤ K.faults store.new }
    ensures fault { result ≡ Err GetError.StoreFault → Rose (K.faults store.old) (K.faults store.new) }
{
    match read_key(alloc, table.schema(), text) {
        Ok(key) => line_at(alloc, table, store, &key),
        Err(e) => Err(GetError::from(e)),
    }
}

/// The line of the value that the files of a generation have at the key of the text. The text is read after the
/// schema's file, and before the other files.
pub fn show_value<K: Store>(
    alloc: Global,
    store: &mut K,
    generation: u32,
    text: &[u8],
) -> Result<ByteList, GetError>
    ensures shows { IfSome (K.files store.old) (λ m. Shows m generation text.now result) }
    ensures reads { IfSome (K.files store.old) (λ m. ShowsWithin m generation text.now
        (K.reads store.old) (K.reads store.new)) }
    ensures files { K.files store.new ≡ K.files store.old }
    ensures later { K.faults store.old ≤ K.faults store.new }
    ensures fault { result ≡ Err GetError.StoreFault → Rose (K.faults store.old) (K.faults store.new) }
{
    match OpenTable::open(alloc, store, generation) {
        Ok(mut table) => shown_in(alloc, &mut table, store, text),
        Err(e) => Err(GetError::from(e)),
    }
}
