//! The bytes of one value, appended to a string: strings of keys are put together of them, and `key_spelling` calls
//! `encode_bytes` where it spells a text straight.
ghost use Rattle.std.specs.Prelude.{◌≡◌, ◌≤◌, ◌<◌, ◌+◌, ◌^◌, ◌++◌, ◌==◌, take, length, OnOk, OnErr, IfOk, if◌then◌else◌};
ghost use Rattle.key_types.specs.Kinds.{kind_of, kinds_of, value_of, values_of, Fits, EachFits};
ghost use Rattle.byte_comparable.specs.Encoding.{encoding, components, escaped, long_bytes, big_bytes, complement};
ghost use Rattle.byte_comparable.specs.Bytewise.{piece, bytewise, last_byte};

use key_types::{ByteList, ColType, NoMemory, TypeList, Value, ValueList};

/// The byte before each component.
pub const SEPARATOR: u8 = 0x40;

/// The byte behind the last component of a tuple or of a string.
pub const TERMINATOR: u8 = 0x38;

/// Appends one byte of a text, and says whether it is a zero.
fn put_byte(byte: u8, behind: bool, out: &mut ByteList) -> Result<bool, NoMemory>
    ensures ok { IfOk result (λ zero. (zero ≡ (byte == 0)) × (out.new ≡ out.old ++ piece behind byte)) }
    ensures kept { take (length out.old) out.new ≡ out.old }
{
    if behind && byte == 0 {
        out.push(0xFE)?;
        return Ok(true);
    }
    if behind {
        out.push(0xFF)?;
    }
    out.push(byte)?;
    Ok(byte == 0)
}

/// Appends the encoding of a text or a blob with these bytes. Without memory a part of it may stand behind what was there.
pub fn encode_bytes(bytes: &[u8], out: &mut ByteList) -> Result<(), NoMemory>
    ensures ok { OnOk result (out.new ≡ out.old ++ escaped bytes.now) }
    ensures kept { take (length out.old) out.new ≡ out.old }
{
    if bytes.contains(&0) {
        return put_bytewise(bytes, out);
    }
    out.extend(bytes)?;
    out.push(0)
}

/// Appends a text or a blob byte by byte.
#[tactic(auto, using(crate::proofs::Zeros::escaped_bytewise))]
fn put_bytewise(bytes: &[u8], out: &mut ByteList) -> Result<(), NoMemory>
    ensures ok { OnOk result (out.new ≡ out.old ++ escaped bytes.now) }
    ensures kept { take (length out.old) out.new ≡ out.old }
{
    let mut behind = false;
    let mut rest = bytes;
    'bytes: loop {
        match rest {
            [] => return out.push(closing(behind)),
            [byte, after @ ..] => {
                behind = put_byte(*byte, behind, out)?;
                rest = after;
            }
        }
    }
}

/// The byte behind a text.
fn closing(behind: bool) -> u8
    ensures { result ≡ last_byte behind }
{
    if behind { 0xFE } else { 0 }
}

/// Appends a number that isn't negative, in as few bytes as can hold it.
fn put_long(n: u64, out: &mut ByteList) -> Result<(), NoMemory>
    requires { n < 2 ^ 63 }
    ensures ok { OnOk result (out.new ≡ out.old ++ long_bytes n) }
    ensures kept { take (length out.old) out.new ≡ out.old }
{
    let [_, b1, b2, b3, b4, b5, b6, b7] = n.to_be_bytes();
    if n < 0x40 {
        out.extend(&[0x80 + b7])
    } else if n < 0x2000 {
        out.extend(&[0xC0 + b6, b7])
    } else if n < 0x10_0000 {
        out.extend(&[0xE0 + b5, b6, b7])
    } else if n < 0x800_0000 {
        out.extend(&[0xF0 + b4, b5, b6, b7])
    } else if n < 0x4_0000_0000 {
        out.extend(&[0xF8 + b3, b4, b5, b6, b7])
    } else if n < 0x200_0000_0000 {
        out.extend(&[0xFC + b2, b3, b4, b5, b6, b7])
    } else if n < 0x1_0000_0000_0000 {
        out.extend(&[0xFE + b1, b2, b3, b4, b5, b6, b7])
    } else if n < 0x80_0000_0000_0000 {
        out.extend(&[0xFF, b1, b2, b3, b4, b5, b6, b7])
    } else {
        out.push(0xFF)?;
        out.extend(&(n + 0x8000_0000_0000_0000).to_be_bytes())
    }
}

/// Whether the number is negative, and the number that is spelled for it.
fn magnitude(n: i64) -> (bool, u64)
    ensures form { big_bytes n ≡ (if result.0 then complement (long_bytes result.1) else long_bytes result.1) }
    ensures bound { result.1 < 2 ^ 63 }
{
    let size = n.unsigned_abs();
    if n >= 0 {
        (false, size)
    } else {
        (true, size - 1)
    }
}

/// Appends a number of bigint.
fn put_big(n: i64, out: &mut ByteList) -> Result<(), NoMemory>
    ensures ok { OnOk result (out.new ≡ out.old ++ big_bytes n) }
    ensures kept { take (length out.old) out.new ≡ out.old }
{
    let (negative, spelled) = magnitude(n);
    let at = out.len();
    put_long(spelled, out)?;
    if negative {
        out.complement_from(at);
    }
    Ok(())
}

/// Appends the encoding of a value.
#[cycle(encode)]
#[tactic(auto, using(crate::proofs::Signs::tail_turned))]
fn put_value(kind: &ColType, value: &Value, out: &mut ByteList) -> Result<(), NoMemory>
    requires { Fits (kind_of kind.now) (value_of value.now) }
    ensures ok { OnOk result (out.new ≡ out.old ++ encoding (kind_of kind.now) (value_of value.now)) }
    ensures kept { take (length out.old) out.new ≡ out.old }
{
    match (kind, value) {
        (ColType::TinyInt, Value::Number(n)) => out.push((*n + 0x80) as u8),
        (ColType::SmallInt, Value::Number(n)) => out.extend(&((*n + 0x8000) as u16).to_be_bytes()),
        (ColType::Int, Value::Number(n)) => out.extend(&((*n + 0x8000_0000) as u32).to_be_bytes()),
        (ColType::BigInt, Value::Number(n)) => put_big(*n, out),
        (ColType::Text, Value::Bytes(bytes)) => encode_bytes(bytes.as_slice(), out),
        (ColType::Blob, Value::Bytes(bytes)) => encode_bytes(bytes.as_slice(), out),
        (ColType::Boolean, Value::Truth(truth)) => out.push(u8::from(*truth)),
        (ColType::Tuple(kinds), Value::Tuple(values)) => {
            put_components(kinds, values, out)?;
            out.push(TERMINATOR)
        }
        (ColType::Reversed(inner), _) => {
            let at = out.len();
            put_value(inner, value, out)?;
            out.complement_from(at);
            Ok(())
        }
        _ => Ok(()),
    }
}

/// Appends a separator and the encoding for each component of a tuple.
#[cycle(encode)]
fn put_components(kinds: &TypeList, values: &ValueList, out: &mut ByteList) -> Result<(), NoMemory>
    requires { EachFits (kinds_of kinds.now) (values_of values.now) }
    ensures ok { OnOk result (out.new ≡ out.old ++ components (kinds_of kinds.now) (values_of values.now)) }
    ensures kept { take (length out.old) out.new ≡ out.old }
{
    match (kinds, values) {
        (TypeList::More(kind, kinds), ValueList::More(value, values)) => {
            out.push(SEPARATOR)?;
            put_value(kind, value, out)?;
            put_components(kinds, values, out)
        }
        _ => Ok(()),
    }
}

/// Appends the encoding, or leaves the bytes as they were.
pub fn encode_into(kind: &ColType, value: &Value, out: &mut ByteList) -> Result<(), NoMemory>
    requires { Fits (kind_of kind.now) (value_of value.now) }
    ensures ok { OnOk result (out.new ≡ out.old ++ encoding (kind_of kind.now) (value_of value.now)) }
    ensures err { OnErr result (out.new ≡ out.old) }
{
    let before = out.len();
    let result = put_value(kind, value, out);
    if result.is_err() {
        out.truncate(before);
    }
    result
}
