//! The lines of rows and static values, which are put behind a text. A command keeps the text of the partition that
//! it is in, so that its components are printed once.
ghost use Rattle.std.specs.Prelude.{◌≡◌, ◌++◌, List, ℕ, codes, OnOk};
ghost use Rattle.key_types.specs.Columns.{columns_of};
ghost use Rattle.key_types.specs.Kinds.{kinds_of};
ghost use Rattle.key_decode.specs.Strings.{IsStringOf};
ghost use Rattle.key_text.specs.Written.{equals_literal};
ghost use Rattle.key_printing.specs.Texts.{IsTextOf};
ghost use Rattle.row_text.specs.Lines.{EndsLine, HoldsText};
ghost use Rattle.row_text.specs.Printed.{count_line, entry_line};

use crate::numbers::put_number;
use key_printing::write_string;
use key_text::write_equals;
use key_types::{ByteList, NoMemory, Schema, ValueType};
use std::alloc::Global;

/// Ends the line of a row, which so far is the text of its partition's components.
fn end_row(
    out: &mut ByteList,
    alloc: Global,
    schema: &Schema,
    clustering: &[u8],
    value: &[u8],
) -> Result<(), NoMemory>
    requires { IsStringOf (kinds_of schema.now.clustering) clustering.now }
    ensures { OnOk result (EndsLine (columns_of schema.now) clustering.now value.now out.old out.new) }
{
    out.push(b' ')?;
    write_string(alloc, &schema.clustering, clustering, out)?;
    write_equals(schema.value, value, out)?;
    out.push(b'\n')
}

/// Ends the line of a static value of this type, which so far is the text of its partition's components.
fn end_static(out: &mut ByteList, kind: ValueType, value: &[u8]) -> Result<(), NoMemory>
    ensures { OnOk result (out.new ≡ out.old ++ codes " static" ++ equals_literal kind value.now ++ codes "\n") }
{
    out.extend(b" static")?;
    write_equals(kind, value, out)?;
    out.push(b'\n')
}

/// Appends the line of a row of the partition with this text.
pub fn put_row(
    out: &mut ByteList,
    alloc: Global,
    schema: &Schema,
    partition: &[u8],
    clustering: &[u8],
    value: &[u8],
) -> Result<(), NoMemory>
    requires { IsStringOf (kinds_of schema.now.clustering) clustering.now }
    ensures { OnOk result ((key : List ℕ) → IsTextOf (kinds_of schema.now.partition) key partition.now
        → out.new ≡ out.old ++ entry_line (columns_of schema.now) (key ++ clustering.now, value.now)) }
{
    out.extend(partition)?;
    end_row(out, alloc, schema, clustering, value)
}

/// Appends the line of the static value of the partition with this text. A table without a static type has none.
pub fn put_static(
    out: &mut ByteList,
    schema: &Schema,
    partition: &[u8],
    value: &[u8],
) -> Result<(), NoMemory>
    ensures { OnOk result ((key : List ℕ) → IsTextOf (kinds_of schema.now.partition) key partition.now
        → out.new ≡ out.old ++ entry_line (columns_of schema.now) (key, value.now)) }
{
    match schema.static_value {
        Some(kind) => {
            out.extend(partition)?;
            end_static(out, kind, value)
        }
        None => Ok(()),
    }
}

/// Turns the text of a partition's components, and its string, to those of this partition, where it isn't the last
/// one.
pub fn turn_text(
    text: &mut ByteList,
    last: &mut ByteList,
    alloc: Global,
    schema: &Schema,
    partition: &[u8],
) -> Result<(), NoMemory>
    requires partition { IsStringOf (kinds_of schema.now.partition) partition.now }
    requires last { HoldsText (kinds_of schema.now.partition) last.old text.old }
    ensures text { OnOk result (IsTextOf (kinds_of schema.now.partition) partition.now text.new) }
    ensures last { OnOk result (last.new ≡ partition.now) }
{
    if last.as_slice() == partition {
        return Ok(());
    }
    last.truncate(0);
    last.extend(partition)?;
    text.truncate(0);
    write_string(alloc, &schema.partition, partition, text)
}

/// Appends the last line, which says how many rows there are.
pub fn put_count(out: &mut ByteList, rows: u64) -> Result<(), NoMemory>
    ensures { OnOk result (out.new ≡ out.old ++ count_line rows) }
{
    put_number(out, b"rows ", rows)?;
    out.push(b'\n')
}
