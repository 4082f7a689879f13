//! Literals, and the lines of rows and static values, appended to bytes.
ghost use Rattle.std.specs.Prelude.{◌≡◌, ◌<◌, ◌≤◌, ◌++◌, ◌∷◌, [], length, take, OnOk, OnErr};
ghost use Rattle.std.specs.Fmt.{signed_decimal};
ghost use Rattle.key_types.specs.Kinds.{kind_of, kinds_of, value_of, values_of, EachFits};
ghost use Rattle.key_types.specs.Literals.{text_literal, blob_literal, boolean_literal, quotes_doubled, hex_digits, literal, literals, list_literal};
ghost use Rattle.key_text.specs.Written.{further_literals, value_literal, equals_literal};

use crate::quotes::split_quote;
use itoa::Buffer;
use key_types::{ByteList, ColType, NoMemory, TypeList, Value, ValueList, ValueType};

/// Puts a number at the end in decimal.
fn put_number(number: i64, out: &mut ByteList) -> Result<(), NoMemory>
    ensures ok { OnOk result (out.new ≡ out.old ++ signed_decimal number) }
    ensures kept { take (length out.old) out.new ≡ out.old }
{
    let mut digits = Buffer::new();
    out.extend(digits.format(number).as_bytes())
}

/// Puts bytes at the end, each quote twice.
fn put_doubled(text: &[u8], out: &mut ByteList) -> Result<(), NoMemory>
    ensures ok { OnOk result (out.new ≡ out.old ++ quotes_doubled text.now) }
    ensures kept { take (length out.old) out.new ≡ out.old }
{
    let mut rest = text;
    'quotes: while let Some((span, after)) = split_quote(rest) {
        out.extend(span)?;
        out.extend(b"''")?;
        rest = after;
    }
    out.extend(rest)
}

/// Puts a text in quotes at the end.
fn put_text(text: &[u8], out: &mut ByteList) -> Result<(), NoMemory>
    ensures ok { OnOk result (out.new ≡ out.old ++ text_literal text.now) }
    ensures kept { take (length out.old) out.new ≡ out.old }
{
    out.push(b'\'')?;
    put_doubled(text, out)?;
    out.push(b'\'')
}

/// How many bytes are spelled at once.
const SPELLED: usize = 32;

/// Puts two hexadecimal digits for each byte of a piece of at most so many at the end.
fn put_hex_piece(piece: &[u8], out: &mut ByteList) -> Result<(), NoMemory>
    requires { length piece.now ≤ 32 }
    ensures ok { OnOk result (out.new ≡ out.old ++ hex_digits piece.now) }
    ensures kept { take (length out.old) out.new ≡ out.old }
{
    let mut digits = [0u8; 2 * SPELLED];
    let (spelled, _) = digits.split_at_mut(2 * piece.len());
    match hex::encode_to_slice(piece, spelled) {
        Ok(()) => out.extend(spelled),
        Err(_) => Err(NoMemory),
    }
}

/// Puts two hexadecimal digits for each byte at the end, in lower case.
fn put_hex(bytes: &[u8], out: &mut ByteList) -> Result<(), NoMemory>
    ensures ok { OnOk result (out.new ≡ out.old ++ hex_digits bytes.now) }
    ensures kept { take (length out.old) out.new ≡ out.old }
{
    let mut rest = bytes;
    'pieces: while !rest.is_empty() {
        let (piece, after) = rest.split_at(rest.len().min(SPELLED));
        put_hex_piece(piece, out)?;
        rest = after;
    }
    Ok(())
}

/// Puts a blob at the end.
fn put_blob(bytes: &[u8], out: &mut ByteList) -> Result<(), NoMemory>
    ensures ok { OnOk result (out.new ≡ out.old ++ blob_literal bytes.now) }
    ensures kept { take (length out.old) out.new ≡ out.old }
{
    out.extend(b"0x")?;
    put_hex(bytes, out)
}

/// Puts a boolean at the end.
fn put_boolean(truth: bool, out: &mut ByteList) -> Result<(), NoMemory>
    ensures ok { OnOk result (out.new ≡ out.old ++ boolean_literal truth) }
    ensures kept { take (length out.old) out.new ≡ out.old }
{
    if truth {
        out.extend(b"true")
    } else {
        out.extend(b"false")
    }
}

/// Puts the literal of a value at the end.
#[cycle(put)]
fn put_value(kind: &ColType, value: &Value, out: &mut ByteList) -> Result<(), NoMemory>
    ensures ok { OnOk result (out.new ≡ out.old ++ literal (kind_of kind.now) (value_of value.now)) }
    ensures kept { take (length out.old) out.new ≡ out.old }
{
    match (kind, value) {
        (ColType::Text, Value::Bytes(text)) => put_text(text.as_slice(), out),
        (ColType::Blob, Value::Bytes(bytes)) => put_blob(bytes.as_slice(), out),
        (ColType::Boolean, Value::Truth(truth)) => put_boolean(*truth, out),
        (ColType::Tuple(kinds), Value::Tuple(values)) => put_list(kinds, values, out),
        (ColType::Reversed(inner), _) => put_value(inner, value, out),
        (_, Value::Number(number)) => put_number(*number, out),
        _ => Ok(()),
    }
}

/// Puts components in parentheses at the end.
#[cycle(put)]
fn put_list(kinds: &TypeList, values: &ValueList, out: &mut ByteList) -> Result<(), NoMemory>
    ensures ok { OnOk result (out.new ≡ out.old ++ list_literal (kinds_of kinds.now) (values_of values.now)) }
    ensures kept { take (length out.old) out.new ≡ out.old }
{
    out.push(b'(')?;
    put_values(kinds, values, out)?;
    out.push(b')')
}

/// Puts components at the end, with a comma and a space between each two.
#[cycle(put)]
fn put_values(kinds: &TypeList, values: &ValueList, out: &mut ByteList) -> Result<(), NoMemory>
    ensures ok { OnOk result (out.new ≡ out.old ++ literals (kinds_of kinds.now) (values_of values.now)) }
    ensures kept { take (length out.old) out.new ≡ out.old }
{
    match (kinds, values) {
        (TypeList::More(kind, kinds), ValueList::More(value, values)) => {
            put_value(kind, value, out)?;
            put_further(kinds, values, out)
        }
        _ => Ok(()),
    }
}

/// Puts the components behind one at the end, with a comma and a space before them, where there are some.
#[cycle(put)]
fn put_further(kinds: &TypeList, values: &ValueList, out: &mut ByteList) -> Result<(), NoMemory>
    ensures ok { OnOk result (out.new ≡ out.old ++ further_literals (kinds_of kinds.now) (values_of values.now)) }
    ensures kept { take (length out.old) out.new ≡ out.old }
{
    match (kinds, values) {
        (TypeList::End, ValueList::End) => Ok(()),
        _ => {
            out.extend(b", ")?;
            put_values(kinds, values, out)
        }
    }
}

/// Puts the literal of a value of the type at the end. Without memory `out` is as before.
pub fn write_value(kind: &ColType, value: &Value, out: &mut ByteList) -> Result<(), NoMemory>
    ensures ok { OnOk result (out.new ≡ out.old ++ literal (kind_of kind.now) (value_of value.now)) }
    ensures err { OnErr result (out.new ≡ out.old) }
{
    let before = out.len();
    let written = put_value(kind, value, out);
    if written.is_err() {
        out.truncate(before);
    }
    written
}

/// Puts the components of a key or a part of it at the end, each of which fits. Without memory `out` is as before.
pub fn write_list(kinds: &TypeList, values: &ValueList, out: &mut ByteList) -> Result<(), NoMemory>
    requires { EachFits (kinds_of kinds.now) (values_of values.now) }
    ensures ok { OnOk result (out.new ≡ out.old ++ list_literal (kinds_of kinds.now) (values_of values.now)) }
    ensures err { OnErr result (out.new ≡ out.old) }
{
    let before = out.len();
    let written = put_list(kinds, values, out);
    if written.is_err() {
        out.truncate(before);
    }
    written
}

/// Puts the literal of a text or a blob at the end.
fn put_bytes(kind: ValueType, bytes: &[u8], out: &mut ByteList) -> Result<(), NoMemory>
    ensures ok { OnOk result (out.new ≡ out.old ++ value_literal kind bytes.now) }
    ensures kept { take (length out.old) out.new ≡ out.old }
{
    match kind {
        ValueType::Text => put_text(bytes, out),
        ValueType::Blob => put_blob(bytes, out),
    }
}

/// Puts an equals sign and a value of a row at the end.
fn put_equals(kind: ValueType, value: &[u8], out: &mut ByteList) -> Result<(), NoMemory>
    ensures ok { OnOk result (out.new ≡ out.old ++ equals_literal kind value.now) }
    ensures kept { take (length out.old) out.new ≡ out.old }
{
    out.extend(b" = ")?;
    put_bytes(kind, value, out)
}

/// Puts the literal of a text or a blob of these bytes at the end. Without memory `out` is as before.
pub fn write_bytes(kind: ValueType, bytes: &[u8], out: &mut ByteList) -> Result<(), NoMemory>
    ensures ok { OnOk result (out.new ≡ out.old ++ value_literal kind bytes.now) }
    ensures err { OnErr result (out.new ≡ out.old) }
{
    let before = out.len();
    let written = put_bytes(kind, bytes, out);
    if written.is_err() {
        out.truncate(before);
    }
    written
}

/// Puts an equals sign and the value of a row, or a static value, at the end. Without memory `out` is as before.
pub fn write_equals(kind: ValueType, value: &[u8], out: &mut ByteList) -> Result<(), NoMemory>
    ensures ok { OnOk result (out.new ≡ out.old ++ equals_literal kind value.now) }
    ensures err { OnErr result (out.new ≡ out.old) }
{
    let before = out.len();
    let written = put_equals(kind, value, out);
    if written.is_err() {
        out.truncate(before);
    }
    written
}
