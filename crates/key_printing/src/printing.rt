//! Components in parentheses, from their string.
ghost use Rattle.std.specs.Prelude.{◌≡◌, ◌++◌, length, take, Ok, OnOk, OnErr, IfSome};
ghost use Rattle.grammar.specs.Code.{GivesOnto};
ghost use Rattle.grammar.specs.declared.stop.Stop.TheVariants.{Memory};
ghost use Rattle.key_types.specs.Kinds.{kind_of, kinds_of};
ghost use Rattle.key_types.specs.Literals.{literal, literals, list_literal};
ghost use Rattle.key_decode.specs.Reading.{seen, text_at, value_at, values_at};
ghost use Rattle.key_decode.specs.Strings.{IsStringOf};
ghost use Rattle.key_text.specs.Written.{further_literals, value_literal};
ghost use Rattle.key_printing.specs.Texts.{PutsText};

use byte_comparable::{SEPARATOR, TERMINATOR};
use grammar::Stop;
use key_decode::{plain_text, read_sign, read_text, read_value};
use key_text::{write_bytes, write_value};
use key_types::{ByteList, ColType, NoMemory, TypeList, ValueType};
use std::alloc::Global;

/// A text that stands in the string as it is, and the bytes behind it; `None` where none is seen.
fn standing_text(complemented: bool, bytes: &[u8]) -> Option<(&[u8], &[u8])>
    ensures { IfSome result (λ x. text_at (seen complemented bytes.now) ≡ Ok (x.0.now, seen complemented x.1.now)) }
{
    if complemented {
        None
    } else {
        plain_text(bytes)
    }
}

/// Puts the text or the blob that stands next at the end, and answers the bytes behind it. One that stands as it is
/// takes no memory of its own.
fn put_bytes<'a>(
    alloc: Global,
    kind: ValueType,
    complemented: bool,
    bytes: &'a [u8],
    out: &mut ByteList,
) -> Result<&'a [u8], Stop>
    ensures prints { GivesOnto (value_literal kind) out.old out.new (λ value rest. (value, seen complemented rest.now)) result
        (text_at (seen complemented bytes.now)) }
    ensures kept { take (length out.old) out.new ≡ out.old }
{
    match standing_text(complemented, bytes) {
        Some((text, rest)) => {
            write_bytes(kind, text, out)?;
            Ok(rest)
        }
        None => {
            let (text, rest) = read_text(alloc, complemented, bytes)?;
            write_bytes(kind, text.as_slice(), out)?;
            Ok(rest)
        }
    }
}

/// Puts the number or the boolean that stands next at the end, and answers the bytes behind it.
fn put_scalar<'a>(
    alloc: Global,
    kind: &ColType,
    complemented: bool,
    bytes: &'a [u8],
    out: &mut ByteList,
) -> Result<&'a [u8], Stop>
    ensures prints { GivesOnto (literal (kind_of kind.now)) out.old out.new (λ value rest. (value, seen complemented rest.now)) result
        (value_at (kind_of kind.now) (seen complemented bytes.now)) }
    ensures kept { take (length out.old) out.new ≡ out.old }
{
    let (value, rest) = read_value(alloc, kind, complemented, bytes)?;
    write_value(kind, &value, out)?;
    Ok(rest)
}

/// Puts the value that stands next at the end, and answers the bytes behind it. Behind an odd count of reversed
/// types the complements of the bytes are read.
#[cycle(put)]
fn put_value<'a>(
    alloc: Global,
    kind: &ColType,
    complemented: bool,
    bytes: &'a [u8],
    out: &mut ByteList,
) -> Result<&'a [u8], Stop>
    ensures prints { GivesOnto (literal (kind_of kind.now)) out.old out.new (λ value rest. (value, seen complemented rest.now)) result
        (value_at (kind_of kind.now) (seen complemented bytes.now)) }
    ensures kept { take (length out.old) out.new ≡ out.old }
{
    match kind {
        ColType::Text => put_bytes(alloc, ValueType::Text, complemented, bytes, out),
        ColType::Blob => put_bytes(alloc, ValueType::Blob, complemented, bytes, out),
        ColType::Tuple(kinds) => put_list(alloc, kinds, complemented, bytes, out),
        ColType::Reversed(inner) => put_value(alloc, inner, !complemented, bytes, out),
        _ => put_scalar(alloc, kind, complemented, bytes, out),
    }
}

/// Puts the components that stand next at the end, in parentheses, and answers the bytes behind them.
#[cycle(put)]
fn put_list<'a>(
    alloc: Global,
    kinds: &TypeList,
    complemented: bool,
    bytes: &'a [u8],
    out: &mut ByteList,
) -> Result<&'a [u8], Stop>
    ensures prints { GivesOnto (list_literal (kinds_of kinds.now)) out.old out.new (λ value rest. (value, seen complemented rest.now)) result
        (values_at (kinds_of kinds.now) (seen complemented bytes.now)) }
    ensures kept { take (length out.old) out.new ≡ out.old }
{
    out.push(b'(')?;
    let rest = put_values(alloc, kinds, complemented, bytes, out)?;
    out.push(b')')?;
    Ok(rest)
}

/// Puts the components that stand next at the end, with a comma and a space between each two.
#[cycle(put)]
fn put_values<'a>(
    alloc: Global,
    kinds: &TypeList,
    complemented: bool,
    bytes: &'a [u8],
    out: &mut ByteList,
) -> Result<&'a [u8], Stop>
    ensures prints { GivesOnto (literals (kinds_of kinds.now)) out.old out.new (λ value rest. (value, seen complemented rest.now)) result
        (values_at (kinds_of kinds.now) (seen complemented bytes.now)) }
    ensures kept { take (length out.old) out.new ≡ out.old }
{
    match kinds {
        TypeList::End => read_sign(complemented, TERMINATOR, bytes),
        TypeList::More(kind, kinds) => {
            let rest = read_sign(complemented, SEPARATOR, bytes)?;
            let rest = put_value(alloc, kind, complemented, rest, out)?;
            put_further(alloc, kinds, complemented, rest, out)
        }
    }
}

/// Puts the components behind one at the end, with a comma and a space before them, where there are some.
#[cycle(put)]
fn put_further<'a>(
    alloc: Global,
    kinds: &TypeList,
    complemented: bool,
    bytes: &'a [u8],
    out: &mut ByteList,
) -> Result<&'a [u8], Stop>
    ensures prints { GivesOnto (further_literals (kinds_of kinds.now)) out.old out.new (λ value rest. (value, seen complemented rest.now)) result
        (values_at (kinds_of kinds.now) (seen complemented bytes.now)) }
    ensures kept { take (length out.old) out.new ≡ out.old }
{
    match kinds {
        TypeList::End => read_sign(complemented, TERMINATOR, bytes),
        TypeList::More(_, _) => {
            out.extend(b", ")?;
            put_values(alloc, kinds, complemented, bytes, out)
        }
    }
}

/// Want of memory, for which alone a string isn't printed.
fn no_memory(_stop: Stop) -> NoMemory
    requires { _stop ≡ Memory }
{
    NoMemory
}

/// Puts the components in parentheses at the end, whose string this is, as a line names them. Without memory `out` is as before.
pub fn write_string(
    alloc: Global,
    kinds: &TypeList,
    string: &[u8],
    out: &mut ByteList,
) -> Result<(), NoMemory>
    requires { IsStringOf (kinds_of kinds.now) string.now }
    ensures ok { OnOk result (PutsText (kinds_of kinds.now) string.now out.old out.new) }
    ensures err { OnErr result (out.new ≡ out.old) }
{
    let before = out.len();
    match put_list(alloc, kinds, false, string, out) {
        Ok(_) => Ok(()),
        Err(stop) => {
            out.truncate(before);
            Err(no_memory(stop))
        }
    }
}
