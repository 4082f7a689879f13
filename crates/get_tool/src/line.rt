//! The line of a value: its literal, or `none`.
ghost use Rattle.std.specs.Prelude.{◌≡◌, IfOk};
ghost use Rattle.key_types.specs.Columns.{columns_of};
ghost use Rattle.get_tool.specs.Shown.{found_line, kind_within, value_line};

use crate::asked::AskedKey;
use key_text::write_bytes;
use key_types::{ByteList, NoMemory, Schema, ValueBytes, ValueType};
use std::alloc::Global;

/// The line of a value of the type.
fn value_line(alloc: Global, kind: ValueType, value: &[u8]) -> Result<ByteList, NoMemory>
    ensures { IfOk result (λ line. line ≡ value_line kind value.now) }
{
    let mut line = ByteList::new(alloc);
    write_bytes(kind, value, &mut line)?;
    line.push(b'\n')?;
    Ok(line)
}

/// The type of the values of rows, or of static values.
fn kind_within(schema: &Schema, key: &AskedKey) -> ValueType
    ensures { result ≡ kind_within (columns_of schema.now) key.now.clustering }
{
    match (&key.clustering, schema.static_value) {
        (None, Some(kind)) => kind,
        _ => schema.value,
    }
}

/// The line of what was found at a key.
pub fn found_line(
    alloc: Global,
    schema: &Schema,
    key: &AskedKey,
    found: Option<ValueBytes>,
) -> Result<ByteList, NoMemory>
    ensures { IfOk result (λ line. line ≡ found_line (columns_of schema.now) key.now.clustering found) }
{
    match found {
        Some(value) => value_line(alloc, kind_within(schema, key), value.as_slice()),
        None => {
            let mut line = ByteList::new(alloc);
            line.extend(b"none\n")?;
            Ok(line)
        }
    }
}
