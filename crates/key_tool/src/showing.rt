//! The one line that the command `key` shows of a text.
ghost use Rattle.std.specs.Prelude.{◌≡◌};
ghost use Rattle.key_types.specs.Kinds.{kinds_of, values_of};
ghost use Rattle.key_tool.specs.Answers.{Finds};
ghost use Rattle.key_tool.specs.Shown.{ShowsDecoded, ShowsEncoded, IsListLine, IsStringLine, ShowsLine, kinds_in};

use crate::request::{KeyFault, KeyPart, KeyWay};
use crate::steps::{bytes_of, components_of, hex_line, list_line, read_string, string_of};
use key_types::{ByteList, Schema, TypeList, ValueList};
use std::alloc::Global;

/// The types of the components of a part of the key.
fn kinds_in(part: KeyPart, schema: &Schema) -> &TypeList
    ensures { kinds_of result.now ≡ kinds_in part schema.now }
{
    match part {
        KeyPart::Partition => &schema.partition,
        KeyPart::Clustering => &schema.clustering,
    }
}

/// The line of the string of the components.
fn string_line(
    alloc: Global,
    schema: &Schema,
    part: KeyPart,
    components: &ValueList,
) -> Result<ByteList, KeyFault>
    ensures { Finds (λ line. line) (IsStringLine (kinds_in part schema.now) (values_of components.now)) result }
{
    let string = string_of(alloc, schema, part, components)?;
    Ok(hex_line(alloc, string.as_slice())?)
}

/// The line of the string of the list that the text is.
fn encode(alloc: Global, schema: &Schema, part: KeyPart, text: &str) -> Result<ByteList, KeyFault>
    ensures { Finds (λ line. line) (ShowsEncoded (kinds_in part schema.now) text.now) result }
{
    let components = components_of(alloc, kinds_in(part, schema), text)?;
    string_line(alloc, schema, part, &components)
}

/// The line of the list whose string the bytes are.
fn components_line(
    alloc: Global,
    schema: &Schema,
    part: KeyPart,
    bytes: &[u8],
) -> Result<ByteList, KeyFault>
    ensures { Finds (λ line. line) (IsListLine (kinds_in part schema.now) bytes.now) result }
{
    let components = read_string(alloc, schema, part, bytes)?;
    Ok(list_line(alloc, kinds_in(part, schema), &components)?)
}

/// The line of the list whose string the hexadecimal text is.
fn decode(alloc: Global, schema: &Schema, part: KeyPart, text: &str) -> Result<ByteList, KeyFault>
    ensures { Finds (λ line. line) (ShowsDecoded (kinds_in part schema.now) text.now) result }
{
    let bytes = bytes_of(alloc, text)?;
    components_line(alloc, schema, part, bytes.as_slice())
}

/// The line that is shown of a text: of a list of components of the part the string in lower hexadecimal, or of a string in hexadecimal of both cases the list.
/// A line feed ends it.
///
/// `Refused` comes exactly where there is no such line: the text is no list of the grammar, a number passes its type, or the string would have over 1,024 bytes;
/// or the text isn't hexadecimal, or its bytes are no string of components that fit. A string that is read may have any length.
pub fn show_key(
    alloc: Global,
    schema: &Schema,
    part: KeyPart,
    way: KeyWay,
    text: &str,
) -> Result<ByteList, KeyFault>
    ensures { Finds (λ line. line) (ShowsLine way (kinds_in part schema.now) text.now) result }
{
    match way {
        KeyWay::Encode => encode(alloc, schema, part, text),
        KeyWay::Decode => decode(alloc, schema, part, text),
    }
}
