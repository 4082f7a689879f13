//! The text of a closed table's rows and static values.
ghost use Rattle.std.specs.Prelude.{◌≡◌, ◌≤◌, ◌<◌, ◌++◌, List, ℕ, length, OnOk, IfOk};
ghost use Rattle.key_types.specs.Columns.{columns_of};
ghost use Rattle.script_text.specs.Script.{most_lines};
ghost use Rattle.key_types.specs.Kinds.{kinds_of};
ghost use Rattle.key_printing.specs.Texts.{IsTextOf};
ghost use Rattle.flush_walk.specs.Given.{IsBehindKey};
ghost use Rattle.flush_walk.specs.TableEntries.{AreTableEntries};
ghost use Rattle.shard_table.specs.Together.{shard_entries};
ghost use Rattle.row_text.specs.Printed.{entry_line, rows_text};

use flush_walk::{part, row_at};
use key_types::{ByteList, NoMemory, Schema};
use row_text::{put_count, put_row, put_static, turn_text};
use shard_table::FrozenTable;
use std::alloc::Global;

/// Appends the line of an entry: of a row, or of a static value where no clustering is there. Its partition has this text.
fn put_entry(
    out: &mut ByteList,
    alloc: Global,
    schema: &Schema,
    text: &[u8],
    clustering: &[u8],
    value: &[u8],
) -> Result<(), NoMemory>
    requires { IsBehindKey (columns_of schema.now) clustering.now value.now }
    ensures { OnOk result ((key : List ℕ) → IsTextOf (kinds_of schema.now.partition) key text.now
        → out.new ≡ out.old ++ entry_line (columns_of schema.now) (key ++ clustering.now, value.now)) }
{
    if clustering.is_empty() {
        put_static(out, schema, text, value)
    } else {
        put_row(out, alloc, schema, text, clustering, value)
    }
}

/// The lines of a table's entries in order, and how many rows there are.
pub fn print_rows(alloc: Global, schema: &Schema, table: &FrozenTable) -> Result<ByteList, NoMemory>
    requires some { 0 < length table.now }
    requires entries { AreTableEntries (columns_of schema.now) (shard_entries table.now) }
    requires count { length (shard_entries table.now) ≤ most_lines }
    ensures { IfOk result (λ text. text ≡ rows_text (columns_of schema.now) (shard_entries table.now)) }
{
    let mut cursor = table.cursor(alloc)?;
    let mut key = ByteList::new(alloc);
    let mut value = ByteList::new(alloc);
    let mut last = ByteList::new(alloc);
    let mut text = ByteList::new(alloc);
    let mut out = ByteList::new(alloc);
    let mut count = 0u64;
    'entries: while table.next_into(&mut cursor, &mut key, &mut value)? {
        let (partition, clustering) = part(schema, key.as_slice());
        turn_text(&mut text, &mut last, alloc, schema, partition)?;
        put_entry(
            &mut out,
            alloc,
            schema,
            text.as_slice(),
            clustering,
            value.as_slice(),
        )?;
        count += row_at(clustering);
    }
    put_count(&mut out, count)?;
    Ok(out)
}
