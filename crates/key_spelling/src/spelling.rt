//! Lists of literals spelled as the strings of their values while they are read: the script calls it for each key.
ghost use Rattle.std.specs.Prelude.{◌∷◌};
ghost use Rattle.grammar.specs.Code.{GivesOnto};
ghost use Rattle.key_types.specs.Kinds.{kind_of, kinds_of};
ghost use Rattle.byte_comparable.specs.Encoding.{encoding, escaped, separator, components, key_string};
ghost use Rattle.key_text.specs.Marking.{marked_at, marked_all, marked_rest, marked_list};
ghost use Rattle.key_text.specs.Reading.{blob_at, closed_read, quoted_text_at};
ghost use Rattle.key_spelling.specs.Spelling.{IsPlain};

use byte_comparable::{SEPARATOR, TERMINATOR, encode_bytes, encode_into};
use grammar::{Stop, read_sign};
use key_text::{list_ends, plain_text, read_closed_blob, read_closed_text, read_marked};
use key_types::{ByteList, ColType, TypeList};
use std::alloc::Global;

/// Spells a number or a boolean of the type, and answers the bytes behind it.
fn spell_plain<'a>(
    alloc: Global,
    kind: &ColType,
    out_of_range: &mut Option<usize>,
    bytes: &'a [u8],
    out: &mut ByteList,
) -> Result<&'a [u8], Stop>
    requires { IsPlain (kind_of kind.now) }
    ensures { GivesOnto (encoding (kind_of kind.now)) out.old out.new (λ value rest. ((value, out_of_range.new), rest.now)) result
        (marked_at (kind_of kind.now) out_of_range.old bytes.now) }
{
    let (value, rest) = read_marked(alloc, kind, out_of_range, bytes)?;
    encode_into(kind, &value, out)?;
    Ok(rest)
}

/// Spells a text, and answers the bytes behind it.
fn spell_text<'a>(alloc: Global, bytes: &'a [u8], out: &mut ByteList) -> Result<&'a [u8], Stop>
    ensures { GivesOnto escaped out.old out.new (λ text rest. (text, rest.now)) result (closed_read quoted_text_at bytes.now) }
{
    if let Some((text, rest)) = plain_text(bytes) {
        encode_bytes(text, out)?;
        return Ok(rest);
    }
    let (text, rest) = read_closed_text(alloc, bytes)?;
    encode_bytes(text.as_slice(), out)?;
    Ok(rest)
}

/// Spells a blob, and answers the bytes behind it.
fn spell_blob<'a>(alloc: Global, bytes: &'a [u8], out: &mut ByteList) -> Result<&'a [u8], Stop>
    ensures { GivesOnto escaped out.old out.new (λ text rest. (text, rest.now)) result (closed_read blob_at bytes.now) }
{
    let (blob, rest) = read_closed_blob(alloc, bytes)?;
    encode_bytes(blob.as_slice(), out)?;
    Ok(rest)
}

/// Spells a value of the type, and answers the bytes behind it.
#[cycle(spell)]
fn spell_value<'a>(
    alloc: Global,
    kind: &ColType,
    out_of_range: &mut Option<usize>,
    bytes: &'a [u8],
    out: &mut ByteList,
) -> Result<&'a [u8], Stop>
    ensures { GivesOnto (encoding (kind_of kind.now)) out.old out.new (λ value rest. ((value, out_of_range.new), rest.now)) result
        (marked_at (kind_of kind.now) out_of_range.old bytes.now) }
{
    match kind {
        ColType::TinyInt => spell_plain(alloc, kind, out_of_range, bytes, out),
        ColType::SmallInt => spell_plain(alloc, kind, out_of_range, bytes, out),
        ColType::Int => spell_plain(alloc, kind, out_of_range, bytes, out),
        ColType::BigInt => spell_plain(alloc, kind, out_of_range, bytes, out),
        ColType::Boolean => spell_plain(alloc, kind, out_of_range, bytes, out),
        ColType::Text => spell_text(alloc, bytes, out),
        ColType::Blob => spell_blob(alloc, bytes, out),
        ColType::Tuple(kinds) => spell_list(alloc, kinds, out_of_range, bytes, out),
        ColType::Reversed(inner) => {
            let at = out.len();
            let rest = spell_value(alloc, inner, out_of_range, bytes, out)?;
            out.complement_from(at);
            Ok(rest)
        }
    }
}

/// Spells a separator and a value of the type, and answers the bytes behind it.
#[cycle(spell)]
fn spell_component<'a>(
    alloc: Global,
    kind: &ColType,
    out_of_range: &mut Option<usize>,
    bytes: &'a [u8],
    out: &mut ByteList,
) -> Result<&'a [u8], Stop>
    ensures { GivesOnto (λ value. separator ∷ encoding (kind_of kind.now) value) out.old out.new (λ value rest. ((value, out_of_range.new), rest.now)) result
        (marked_at (kind_of kind.now) out_of_range.old bytes.now) }
{
    out.push(SEPARATOR)?;
    spell_value(alloc, kind, out_of_range, bytes, out)
}

/// Spells components with a comma before each, and answers the bytes behind them.
#[cycle(spell)]
fn spell_further<'a>(
    alloc: Global,
    kinds: &TypeList,
    out_of_range: &mut Option<usize>,
    bytes: &'a [u8],
    out: &mut ByteList,
) -> Result<&'a [u8], Stop>
    ensures { GivesOnto (components (kinds_of kinds.now)) out.old out.new (λ value rest. ((value, out_of_range.new), rest.now)) result
        (marked_rest (kinds_of kinds.now) out_of_range.old bytes.now) }
{
    match kinds {
        TypeList::End => list_ends(bytes),
        TypeList::More(kind, kinds) => {
            let rest = read_sign(b',', bytes)?;
            let rest = spell_component(alloc, kind, out_of_range, rest, out)?;
            spell_further(alloc, kinds, out_of_range, rest, out)
        }
    }
}

/// Spells components with a comma between each two, and answers the bytes behind them.
#[cycle(spell)]
fn spell_all<'a>(
    alloc: Global,
    kinds: &TypeList,
    out_of_range: &mut Option<usize>,
    bytes: &'a [u8],
    out: &mut ByteList,
) -> Result<&'a [u8], Stop>
    ensures { GivesOnto (components (kinds_of kinds.now)) out.old out.new (λ value rest. ((value, out_of_range.new), rest.now)) result
        (marked_all (kinds_of kinds.now) out_of_range.old bytes.now) }
{
    match kinds {
        TypeList::End => list_ends(bytes),
        TypeList::More(kind, kinds) => {
            let rest = spell_component(alloc, kind, out_of_range, bytes, out)?;
            spell_further(alloc, kinds, out_of_range, rest, out)
        }
    }
}

/// Spells the string of a list of components in parentheses, one of each type, at the end of `out`, and answers the
/// bytes behind the list.
///
/// A number that passes its type is read as 0, and the first such is marked in `out_of_range` by how many bytes are
/// left where it begins. A text may be of any bytes, and the string of any length. After a stop `out` may have a part
/// of the string behind what was there.
#[cycle(spell)]
pub fn spell_list<'a>(
    alloc: Global,
    kinds: &TypeList,
    out_of_range: &mut Option<usize>,
    bytes: &'a [u8],
    out: &mut ByteList,
) -> Result<&'a [u8], Stop>
    ensures { GivesOnto (key_string (kinds_of kinds.now)) out.old out.new (λ value rest. ((value, out_of_range.new), rest.now)) result
        (marked_list (kinds_of kinds.now) out_of_range.old bytes.now) }
{
    let rest = read_sign(b'(', bytes)?;
    let rest = spell_all(alloc, kinds, out_of_range, rest, out)?;
    let rest = read_sign(b')', rest)?;
    out.push(TERMINATOR)?;
    Ok(rest)
}
