//! The text of Schema.txt, written and read.
ghost use Rattle.std.specs.Prelude.{◌≡◌, ◌≤◌, ◌+◌, ◌++◌, List, ℕ, length, codes, Err, IfOk, IfSome, MatchOption};
ghost use Rattle.outside.specs.Causes.{Rose};
ghost use Rattle.outside.specs.Files.{bytes_of};
ghost use Rattle.key_types.specs.Columns.{columns_of};
ghost use Rattle.table_files.specs.Names.{schema_id};
ghost use Rattle.table_files.specs.SchemaFile.{ReadsSchemaFile, schema_file_text, version_line};

use crate::error::FileError;
use crate::names::schema_id;
use key_types::{ByteList, NoMemory, Schema, ValueType};
use outside::{PAGE, Store};
use schema_text::{read_canonical, write_schema};
use std::alloc::Global;

/// How many bytes the first line has.
const LINE: usize = 12;

/// What stands behind the schema.
const END: &[u8] = b"\nend\n";

/// The first line of the file of a table with this static type, or with none.
fn version_line(static_value: Option<ValueType>) -> &'static [u8]
    ensures { result.now ≡ version_line static_value }
{
    match static_value {
        None => b"bti-table 1\n",
        Some(_) => b"bti-table 2\n",
    }
}

/// The whole text of the file.
pub fn schema_file_text(alloc: Global, schema: &Schema) -> Result<ByteList, NoMemory>
    ensures { IfOk result (λ text. text ≡ schema_file_text (columns_of schema.now)) }
{
    let mut text = ByteList::new(alloc);
    text.extend(version_line(schema.static_value))?;
    write_schema(schema, &mut text)?;
    text.extend(END)?;
    Ok(text)
}

/// The first line of the file, and the text between it and the end, where both are there.
fn text_within(bytes: &[u8]) -> Option<(&[u8], &[u8])>
    ensures { MatchOption result ((line text : List ℕ) → length line ≡ 12 → bytes.now ≡ line ++ (text ++ codes "\nend\n") → ⊥)
        (λ p. (length p.0.now ≡ 12) × (bytes.now ≡ p.0.now ++ (p.1.now ++ codes "\nend\n"))) }
{
    if bytes.len() < LINE {
        return None;
    }
    let (line, rest) = bytes.split_at(LINE);
    let text = rest.strip_suffix(END)?;
    Some((line, text))
}

/// The schema whose file these bytes are; `None` where they are that of none.
fn read_schema_text(alloc: Global, bytes: &[u8]) -> Result<Option<Schema>, NoMemory>
    ensures { IfOk result (ReadsSchemaFile bytes.now) }
{
    let Some((line, text)) = text_within(bytes) else {
        return Ok(None);
    };
    let Some(schema) = read_canonical(alloc, text)? else {
        return Ok(None);
    };
    if line == version_line(schema.static_value) {
        Ok(Some(schema))
    } else {
        Ok(None)
    }
}

/// The schema of a generation's Schema.txt; `None` where it isn't there or isn't whole. One read of the store at most.
pub fn read_schema<K: Store>(
    alloc: Global,
    store: &mut K,
    generation: u32,
) -> Result<Option<Schema>, FileError>
    ensures told { IfSome (K.files store.old) (λ m. IfOk result (ReadsSchemaFile (bytes_of m (schema_id generation)))) }
    ensures files { K.files store.new ≡ K.files store.old }
    ensures reads { K.reads store.new ≤ K.reads store.old + 1 }
    ensures later { K.faults store.old ≤ K.faults store.new }
    ensures fault { result ≡ Err FileError.StoreFault → Rose (K.faults store.old) (K.faults store.new) }
{
    // The greatest length of the file, 4,017, is below a page's.
    let mut page = [0u8; PAGE];
    let count = store.read(schema_id(generation), 0, &mut page)?;
    Ok(read_schema_text(alloc, &page[..count])?)
}
