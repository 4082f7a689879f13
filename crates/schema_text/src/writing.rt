//! The canonical text of a schema, appended to bytes.
ghost use Rattle.std.specs.Prelude.{◌≡◌, ◌++◌, length, take, OnOk, OnErr};
ghost use Rattle.key_types.specs.Kinds.{kind_of, kinds_of};
ghost use Rattle.key_types.specs.Columns.{columns_of};
ghost use Rattle.schema_text.specs.Canonical.{type_text, types_text, rest_text, value_text, static_text, lists_text, values_text, canonical};

use key_types::{ByteList, ColType, NoMemory, Schema, TypeList, ValueType};

/// Puts a type at the end.
#[cycle(write)]
fn write_type(kind: &ColType, out: &mut ByteList) -> Result<(), NoMemory>
    ensures ok { OnOk result (out.new ≡ out.old ++ type_text (kind_of kind.now)) }
    ensures kept { take (length out.old) out.new ≡ out.old }
{
    match kind {
        ColType::TinyInt => out.extend(b"tinyint"),
        ColType::SmallInt => out.extend(b"smallint"),
        ColType::Int => out.extend(b"int"),
        ColType::BigInt => out.extend(b"bigint"),
        ColType::Text => out.extend(b"text"),
        ColType::Blob => out.extend(b"blob"),
        ColType::Boolean => out.extend(b"boolean"),
        ColType::Tuple(kinds) => {
            out.extend(b"tuple<")?;
            write_types(kinds, out)?;
            out.extend(b">")
        }
        ColType::Reversed(inner) => {
            write_type(inner, out)?;
            out.extend(b" reversed")
        }
    }
}

/// Puts types at the end, with a comma and a space between each two.
#[cycle(write)]
fn write_types(kinds: &TypeList, out: &mut ByteList) -> Result<(), NoMemory>
    ensures ok { OnOk result (out.new ≡ out.old ++ types_text (kinds_of kinds.now)) }
    ensures kept { take (length out.old) out.new ≡ out.old }
{
    match kinds {
        TypeList::End => Ok(()),
        TypeList::More(kind, rest) => {
            write_type(kind, out)?;
            write_rest(rest, out)
        }
    }
}

/// Puts further types at the end, with a comma and a space before each.
#[cycle(write)]
fn write_rest(kinds: &TypeList, out: &mut ByteList) -> Result<(), NoMemory>
    ensures ok { OnOk result (out.new ≡ out.old ++ rest_text (kinds_of kinds.now)) }
    ensures kept { take (length out.old) out.new ≡ out.old }
{
    match kinds {
        TypeList::End => Ok(()),
        TypeList::More(kind, rest) => {
            out.extend(b", ")?;
            write_type(kind, out)?;
            write_rest(rest, out)
        }
    }
}

/// Puts a value type at the end.
fn write_value_type(value: ValueType, out: &mut ByteList) -> Result<(), NoMemory>
    ensures ok { OnOk result (out.new ≡ out.old ++ value_text value) }
    ensures kept { take (length out.old) out.new ≡ out.old }
{
    match value {
        ValueType::Text => out.extend(b"text"),
        ValueType::Blob => out.extend(b"blob"),
    }
}

/// Puts the type of a static value at the end, where there is one.
fn write_static(value: Option<ValueType>, out: &mut ByteList) -> Result<(), NoMemory>
    ensures ok { OnOk result (out.new ≡ out.old ++ static_text value) }
    ensures kept { take (length out.old) out.new ≡ out.old }
{
    match value {
        None => Ok(()),
        Some(value) => {
            out.extend(b"; ")?;
            write_value_type(value, out)
        }
    }
}

/// Puts the first sign and the types of the components of keys at the end.
fn write_lists(schema: &Schema, out: &mut ByteList) -> Result<(), NoMemory>
    ensures ok { OnOk result (out.new ≡ out.old ++ lists_text (columns_of schema.now)) }
    ensures kept { take (length out.old) out.new ≡ out.old }
{
    out.extend(b"(")?;
    write_types(&schema.partition, out)?;
    out.extend(b"; ")?;
    write_types(&schema.clustering, out)
}

/// Puts the types of values and the last sign at the end.
fn write_values(schema: &Schema, out: &mut ByteList) -> Result<(), NoMemory>
    ensures ok { OnOk result (out.new ≡ out.old ++ values_text (columns_of schema.now)) }
    ensures kept { take (length out.old) out.new ≡ out.old }
{
    out.extend(b"; ")?;
    write_value_type(schema.value, out)?;
    write_static(schema.static_value, out)?;
    out.extend(b")")
}

/// Puts the canonical text at the end.
fn write_columns(schema: &Schema, out: &mut ByteList) -> Result<(), NoMemory>
    ensures ok { OnOk result (out.new ≡ out.old ++ canonical (columns_of schema.now)) }
    ensures kept { take (length out.old) out.new ≡ out.old }
{
    write_lists(schema, out)?;
    write_values(schema, out)
}

/// Puts the canonical text of the schema at the end of `out`. Without memory `out` is as before.
pub fn write_schema(schema: &Schema, out: &mut ByteList) -> Result<(), NoMemory>
    ensures ok { OnOk result (out.new ≡ out.old ++ canonical (columns_of schema.now)) }
    ensures err { OnErr result (out.new ≡ out.old) }
{
    let before = out.len();
    let written = write_columns(schema, out);
    if written.is_err() {
        out.truncate(before);
    }
    written
}
