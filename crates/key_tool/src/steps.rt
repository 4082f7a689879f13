//! The steps of what is shown, each exact.
ghost use Rattle.std.specs.Prelude.{◌≡◌, Ok, IfOk};
ghost use Rattle.key_types.specs.Kinds.{EachFits, kinds_of, values_of};
ghost use Rattle.key_types.specs.Literals.{hex_digits, list_literal};
ghost use Rattle.byte_comparable.specs.Encoding.{key_string};
ghost use Rattle.byte_comparable.specs.Strings.{AnswersString, string_of};
ghost use Rattle.key_decode.specs.Shapes.{DecodesAll, RefusesBytes};
ghost use Rattle.key_text.specs.Tokens.{AreHex};
ghost use Rattle.key_tool.specs.Answers.{Finds};
ghost use Rattle.key_tool.specs.Shown.{HasString, SpellsComponents, kinds_in, ended_line};

use crate::request::{KeyFault, KeyPart};
use byte_comparable::{KeyError, clustering_string, partition_string};
use hex::FromHexError;
use key_decode::{DecodeError, decode_clustering, decode_partition};
use key_text::{LiteralError, read_list, write_list};
use key_types::{ByteList, KeyBytes, NoMemory, Schema, TypeList, ValueList};
use std::alloc::Global;

/// The components that the text spells.
pub fn components_of(alloc: Global, kinds: &TypeList, text: &str) -> Result<ValueList, KeyFault>
    ensures { Finds values_of (SpellsComponents (kinds_of kinds.now) text.now) result }
{
    match read_list(alloc, kinds, text.as_bytes()) {
        Ok(components) => Ok(components),
        Err(LiteralError::BadToken(_)) => Err(KeyFault::Refused),
        Err(LiteralError::OutOfRange(_)) => Err(KeyFault::Refused),
        Err(LiteralError::NoMemory) => Err(KeyFault::NoMemory),
    }
}

/// The string of components of the part.
fn part_string(
    alloc: Global,
    schema: &Schema,
    part: KeyPart,
    components: &ValueList,
) -> Result<KeyBytes, KeyError>
    ensures { AnswersString result (string_of (kinds_in part schema.now) (values_of components.now)) }
{
    match part {
        KeyPart::Partition => partition_string(alloc, schema, components),
        KeyPart::Clustering => clustering_string(alloc, schema, components),
    }
}

/// The string of components of the part, where it has at most 1,024 bytes.
pub fn string_of(
    alloc: Global,
    schema: &Schema,
    part: KeyPart,
    components: &ValueList,
) -> Result<KeyBytes, KeyFault>
    ensures { Finds (λ string. string) (λ string. string_of (kinds_in part schema.now) (values_of components.now) ≡ Ok string) result }
{
    match part_string(alloc, schema, part, components) {
        Ok(string) => Ok(string),
        Err(KeyError::NoMemory) => Err(KeyFault::NoMemory),
        Err(KeyError::WrongCount | KeyError::WrongType(_) | KeyError::TooLong(_)) => {
            Err(KeyFault::Refused)
        }
    }
}

/// The bytes, and a line feed.
fn ended(bytes: ByteList) -> Result<ByteList, NoMemory>
    ensures { IfOk result (λ line. line ≡ ended_line bytes) }
{
    let mut line = bytes;
    line.push(b'\n')?;
    Ok(line)
}

/// The bytes in lower hexadecimal, and a line feed.
pub fn hex_line(alloc: Global, bytes: &[u8]) -> Result<ByteList, NoMemory>
    ensures { IfOk result (λ line. line ≡ ended_line (hex_digits bytes.now)) }
{
    let digits = hex::encode(alloc, bytes)?;
    ended(ByteList::from_vec(digits.into_bytes()))
}

/// The bytes of which the text is the hexadecimal.
pub fn bytes_of(alloc: Global, text: &str) -> Result<ByteList, KeyFault>
    ensures { Finds (λ bytes. bytes) (λ bytes. AreHex bytes text.now) result }
{
    match hex::decode(alloc, text) {
        Ok(bytes) => Ok(ByteList::from_vec(bytes)),
        Err(FromHexError::OutOfMemory) => Err(KeyFault::NoMemory),
        Err(_) => Err(KeyFault::Refused),
    }
}

/// The components of the part whose string the bytes are.
fn part_components(
    alloc: Global,
    schema: &Schema,
    part: KeyPart,
    bytes: &[u8],
) -> Result<ValueList, DecodeError>
    ensures exact { DecodesAll (kinds_in part schema.now) bytes.now result }
    ensures refused { let kinds = kinds_in part schema.now in
        RefusesBytes (key_string kinds) (EachFits kinds) bytes.now result }
{
    match part {
        KeyPart::Partition => decode_partition(alloc, schema, bytes),
        KeyPart::Clustering => decode_clustering(alloc, schema, bytes),
    }
}

/// The components of the part whose string the bytes are, of any length.
pub fn read_string(
    alloc: Global,
    schema: &Schema,
    part: KeyPart,
    bytes: &[u8],
) -> Result<ValueList, KeyFault>
    ensures { Finds values_of (HasString (kinds_in part schema.now) bytes.now) result }
{
    match part_components(alloc, schema, part, bytes) {
        Ok(components) => Ok(components),
        Err(DecodeError::NoMemory) => Err(KeyFault::NoMemory),
        Err(DecodeError::Truncated | DecodeError::BadByte(_) | DecodeError::BadUtf8) => {
            Err(KeyFault::Refused)
        }
    }
}

/// The list of components, and a line feed.
pub fn list_line(
    alloc: Global,
    kinds: &TypeList,
    components: &ValueList,
) -> Result<ByteList, NoMemory>
    requires { EachFits (kinds_of kinds.now) (values_of components.now) }
    ensures { IfOk result (λ line. line ≡ ended_line (list_literal (kinds_of kinds.now) (values_of components.now))) }
{
    let mut list = ByteList::new(alloc);
    write_list(kinds, components, &mut list)?;
    ended(list)
}
