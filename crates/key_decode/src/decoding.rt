//! Values from whole encodings and strings, with the exact refusals.
ghost use Rattle.std.specs.Prelude.{◌≡◌, ◌≤◌};
ghost use Rattle.grammar.specs.Code.{Gives};
ghost use Rattle.grammar.specs.Reading.{whole};
ghost use Rattle.key_types.specs.Kinds.{kind_of, kinds_of, value_of, values_of, Fits, EachFits};
ghost use Rattle.byte_comparable.specs.Encoding.{encoding, key_string};
ghost use Rattle.key_decode.specs.Reading.{value_at, values_at};
ghost use Rattle.key_decode.specs.Shapes.{Decodes, DecodesAll, RefusesBytes, refusal_of};

use crate::values::{read_value, read_values};
use grammar::Stop;
use key_types::{ColType, Schema, TypeList, Value, ValueList, all_fit, fits};
use std::alloc::Global;
use thiserror::Error;

/// Why bytes are no encoding.
#[derive(Clone, Copy, Debug, PartialEq, Eq, Error)]
pub enum DecodeError {
    /// The bytes begin a shape of the type, and are none.
    #[error("the bytes end early")]
    Truncated,
    /// The bytes before this place, from 0, begin a shape of the type, and with the byte there they don't.
    #[error("bad byte at {0}")]
    BadByte(usize),
    /// The bytes are a shape of the type, and a text in it isn't UTF-8.
    #[error("a text is not UTF-8")]
    BadUtf8,
    /// Memory ran out.
    #[error("out of memory")]
    NoMemory,
}

/// The refusal where so many bytes are left with which no shape goes on.
fn refusal(all: usize, left: usize) -> DecodeError
    requires { left ≤ all }
    ensures { result ≡ refusal_of all left }
{
    if left == 0 {
        DecodeError::Truncated
    } else {
        DecodeError::BadByte(all - left)
    }
}

/// A value of the type from all bytes.
fn whole_value(alloc: Global, kind: &ColType, bytes: &[u8]) -> Result<Value, Stop>
    ensures { Gives value_of result (whole (value_at (kind_of kind.now)) bytes.now) }
{
    let (value, rest) = read_value(alloc, kind, false, bytes)?;
    if rest.is_empty() {
        Ok(value)
    } else {
        Err(Stop::At(rest.len()))
    }
}

/// A value of each type from all bytes.
fn whole_values(alloc: Global, kinds: &TypeList, bytes: &[u8]) -> Result<ValueList, Stop>
    ensures { Gives values_of result (whole (values_at (kinds_of kinds.now)) bytes.now) }
{
    let (values, rest) = read_values(alloc, kinds, false, bytes)?;
    if rest.is_empty() {
        Ok(values)
    } else {
        Err(Stop::At(rest.len()))
    }
}

/// The value whose encoding the bytes are.
pub fn decode(alloc: Global, kind: &ColType, bytes: &[u8]) -> Result<Value, DecodeError>
    ensures exact { Decodes (kind_of kind.now) bytes.now result }
    ensures refused { RefusesBytes (encoding (kind_of kind.now)) (Fits (kind_of kind.now)) bytes.now result }
{
    match whole_value(alloc, kind, bytes) {
        Ok(value) => {
            if fits(kind, &value) {
                Ok(value)
            } else {
                Err(DecodeError::BadUtf8)
            }
        }
        Err(Stop::Memory) => Err(DecodeError::NoMemory),
        Err(Stop::At(left)) => Err(refusal(bytes.len(), left)),
    }
}

/// The values whose string the bytes are.
fn decode_all(alloc: Global, kinds: &TypeList, bytes: &[u8]) -> Result<ValueList, DecodeError>
    ensures exact { DecodesAll (kinds_of kinds.now) bytes.now result }
    ensures refused { RefusesBytes (key_string (kinds_of kinds.now)) (EachFits (kinds_of kinds.now)) bytes.now result }
{
    match whole_values(alloc, kinds, bytes) {
        Ok(values) => {
            if all_fit(kinds, &values) {
                Ok(values)
            } else {
                Err(DecodeError::BadUtf8)
            }
        }
        Err(Stop::Memory) => Err(DecodeError::NoMemory),
        Err(Stop::At(left)) => Err(refusal(bytes.len(), left)),
    }
}

/// The values of a partition from its string.
pub fn decode_partition(
    alloc: Global,
    schema: &Schema,
    bytes: &[u8],
) -> Result<ValueList, DecodeError>
    ensures exact { DecodesAll (kinds_of schema.now.partition) bytes.now result }
    ensures refused { let kinds = kinds_of schema.now.partition in
        RefusesBytes (key_string kinds) (EachFits kinds) bytes.now result }
{
    decode_all(alloc, &schema.partition, bytes)
}

/// The values of a row within its partition from their string.
pub fn decode_clustering(
    alloc: Global,
    schema: &Schema,
    bytes: &[u8],
) -> Result<ValueList, DecodeError>
    ensures exact { DecodesAll (kinds_of schema.now.clustering) bytes.now result }
    ensures refused { let kinds = kinds_of schema.now.clustering in
        RefusesBytes (key_string kinds) (EachFits kinds) bytes.now result }
{
    decode_all(alloc, &schema.clustering, bytes)
}
