//! Strings of keys, known and parted without memory.
ghost use Rattle.std.specs.Prelude.{◌≡◌, ◌≤◌, ◌<◌, ◌+◌, ◌∷◌, [], ◌++◌, Result, List, ℕ, Ok, IfSome, IsNone, IsTrue, MatchOption, MatchResult, IsErr, take, drop, length, ◌↔◌, ◌==◌};
ghost use Rattle.std.specs.Str.{is_utf8};
ghost use Rattle.grammar.specs.Reading.{given_at};
ghost use Rattle.key_types.specs.Kinds.{kind_of, kinds_of};
ghost use Rattle.key_decode.specs.Reading.{seen, text_at, value_at, values_at};
ghost use Rattle.key_decode.specs.Passing.{AreUtf8Of, IsUtf8Of, Skips};
ghost use Rattle.key_decode.specs.Strings.{BeginsString, IsStringOf, SplitsString};
ghost use Rattle.byte_comparable.specs.Strings.{longest_string};

use crate::numbers::{flipped, read_big, read_truth, seen_byte};
use crate::texts::{Move, Place, plain_text, step};
use byte_comparable::{LONGEST_STRING, SEPARATOR, TERMINATOR};
use grammar::Stop;
use key_types::{ColType, Schema, TypeList, Value, is_text};

/// Puts a text at the front of `out`, and answers its length and the bytes behind it.
fn text_into<'a>(
    complemented: bool,
    bytes: &'a [u8],
    out: &mut [u8; LONGEST_STRING],
) -> Option<(usize, &'a [u8])>
    requires short { length bytes.now ≤ longest_string }
    ensures some { IfSome result (λ x. (x.0 ≤ longest_string) × (text_at (seen complemented bytes.now) ≡ Ok (take x.0 out.new, seen complemented x.1.now))) }
    ensures none { IsNone result → (found : List ℕ × List ℕ) → text_at (seen complemented bytes.now) ≡ Ok found → ⊥ }
{
    let mut rest = bytes;
    let mut place = Place::Plain;
    let mut count = 0;
    'bytes: loop {
        let Ok((next, after)) = step(place, complemented, rest) else {
            return None;
        };
        match next {
            Move::End => return Some((count, after)),
            Move::Begin => place = Place::Behind,
            Move::Byte(byte, then) => {
                out[count] = byte;
                count += 1;
                place = then;
            }
        }
        rest = after;
    }
}

/// The bytes behind a blob, which is walked byte by byte.
fn pass_bytes(complemented: bool, bytes: &[u8]) -> Option<&[u8]>
    ensures { Skips (λ blob. Unit {0}) (λ x. seen complemented x.now) result (text_at (seen complemented bytes.now)) }
{
    let mut rest = bytes;
    let mut place = Place::Plain;
    'bytes: loop {
        let Ok((next, after)) = step(place, complemented, rest) else {
            return None;
        };
        match next {
            Move::End => return Some(after),
            Move::Begin => place = Place::Behind,
            Move::Byte(_, then) => place = then,
        }
        rest = after;
    }
}

/// The bytes behind a text, which is gathered first, since it may have zero bytes or be complemented.
fn pass_gathered(complemented: bool, bytes: &[u8]) -> Option<&[u8]>
    requires short { length bytes.now ≤ longest_string }
    ensures { Skips (λ text. IsTrue (is_utf8 text)) (λ x. seen complemented x.now) result (text_at (seen complemented bytes.now)) }
{
    let mut text = [0u8; LONGEST_STRING];
    let (count, rest) = text_into(complemented, bytes, &mut text)?;
    if !is_text(&text[..count]) {
        return None;
    }
    Some(rest)
}

/// The bytes behind a blob.
fn pass_blob(complemented: bool, bytes: &[u8]) -> Option<&[u8]>
    ensures { Skips (λ blob. Unit {0}) (λ x. seen complemented x.now) result (text_at (seen complemented bytes.now)) }
{
    if complemented {
        return pass_bytes(complemented, bytes);
    }
    match plain_text(bytes) {
        Some((_, rest)) => Some(rest),
        None => pass_bytes(complemented, bytes),
    }
}

/// The bytes behind a text.
fn pass_text(complemented: bool, bytes: &[u8]) -> Option<&[u8]>
    requires short { length bytes.now ≤ longest_string }
    ensures { Skips (λ text. IsTrue (is_utf8 text)) (λ x. seen complemented x.now) result (text_at (seen complemented bytes.now)) }
{
    if complemented {
        return pass_gathered(complemented, bytes);
    }
    match plain_text(bytes) {
        Some((text, rest)) => is_text(text).then_some(rest),
        None => pass_gathered(complemented, bytes),
    }
}

/// The bytes behind a number of so many bytes, of which each may be any.
fn pass_number(count: usize, bytes: &[u8]) -> Option<&[u8]>
    ensures { MatchOption result (length bytes.now < count) (λ rest. (count ≤ length bytes.now) × (rest.now ≡ drop count bytes.now)) }
{
    bytes.get(count..)
}

/// The bytes behind this byte.
fn pass_sign(complemented: bool, sign: u8, bytes: &[u8]) -> Option<&[u8]>
    ensures { let read = given_at (sign ∷ []) (seen complemented bytes.now) in
        MatchOption result (IsErr read) (λ rest. read ≡ Ok (tt, seen complemented rest.now)) }
{
    let (byte, rest) = bytes.split_first()?;
    if seen_byte(complemented, *byte) == sign {
        Some(rest)
    } else {
        None
    }
}

/// The bytes behind a value that was read.
fn behind(read: Result<(Value, &[u8]), Stop>) -> Option<&[u8]>
    ensures { MatchOption result (IsErr read.entry) (λ rest. MatchResult read.entry (λ x. x.1.now ≡ rest.now) (λ e. ⊥)) }
{
    match read {
        Ok((_, rest)) => Some(rest),
        Err(_) => None,
    }
}

/// The bytes behind a value of the type; `None` where none begins here. Behind an odd count of reversed types the
/// complements of the bytes are read.
#[cycle(pass)]
fn pass_value<'a>(kind: &ColType, complemented: bool, bytes: &'a [u8]) -> Option<&'a [u8]>
    requires short { length bytes.now ≤ longest_string }
    ensures passes { Skips (IsUtf8Of (kind_of kind.now)) (λ x. seen complemented x.now) result (value_at (kind_of kind.now) (seen complemented bytes.now)) }
    ensures shorter { IfSome result (λ x. length x.now ≤ length bytes.now) }
{
    match kind {
        ColType::TinyInt => pass_number(1, bytes),
        ColType::SmallInt => pass_number(2, bytes),
        ColType::Int => pass_number(4, bytes),
        ColType::BigInt => behind(read_big(complemented, bytes)),
        ColType::Text => pass_text(complemented, bytes),
        ColType::Blob => pass_blob(complemented, bytes),
        ColType::Boolean => behind(read_truth(complemented, bytes)),
        ColType::Tuple(kinds) => pass_values(kinds, complemented, bytes),
        ColType::Reversed(inner) => pass_value(inner, flipped(complemented), bytes),
    }
}

/// The bytes behind a value of each type, each behind a separator, and behind the terminator.
#[cycle(pass)]
fn pass_values<'a>(kinds: &TypeList, complemented: bool, bytes: &'a [u8]) -> Option<&'a [u8]>
    requires short { length bytes.now ≤ longest_string }
    ensures { Skips (AreUtf8Of (kinds_of kinds.now)) (λ x. seen complemented x.now) result (values_at (kinds_of kinds.now) (seen complemented bytes.now)) }
{
    match kinds {
        TypeList::End => pass_sign(complemented, TERMINATOR, bytes),
        TypeList::More(kind, kinds) => {
            let rest = pass_sign(complemented, SEPARATOR, bytes)?;
            let rest = pass_value(kind, complemented, rest)?;
            pass_values(kinds, complemented, rest)
        }
    }
}

/// Whether the bytes are the string of values of these types.
fn is_string(kinds: &TypeList, bytes: &[u8]) -> bool
    ensures { IsTrue result ↔ IsStringOf (kinds_of kinds.now) bytes.now }
{
    if bytes.len() > LONGEST_STRING {
        return false;
    }
    match pass_values(kinds, false, bytes) {
        Some(rest) => rest.is_empty(),
        None => false,
    }
}

/// Whether the bytes are the string of a partition. It takes no memory.
pub fn is_partition_string(schema: &Schema, bytes: &[u8]) -> bool
    ensures { IsTrue result ↔ IsStringOf (kinds_of schema.now.partition) bytes.now }
{
    is_string(&schema.partition, bytes)
}

/// Whether the bytes are the string of a row within its partition. It takes no memory.
pub fn is_clustering_string(schema: &Schema, bytes: &[u8]) -> bool
    ensures { IsTrue result ↔ IsStringOf (kinds_of schema.now.clustering) bytes.now }
{
    is_string(&schema.clustering, bytes)
}

/// The length of the string with which the bytes begin.
fn front_length(kinds: &TypeList, bytes: &[u8]) -> usize
    requires { BeginsString (kinds_of kinds.now) bytes.now }
    ensures string { IsStringOf (kinds_of kinds.now) (take result bytes.now) }
    ensures only { (string rest : List ℕ) → SplitsString (kinds_of kinds.now) bytes.now string rest → length string ≡ result }
    ensures inside { result ≤ length bytes.now }
{
    let front = &bytes[..bytes.len().min(LONGEST_STRING)];
    match pass_values(kinds, false, front) {
        Some(rest) => front.len() - rest.len(),
        None => 0,
    }
}

/// The length of the partition's string, with which the string of a row begins. It takes no memory.
pub fn split_row(schema: &Schema, row: &[u8]) -> usize
    requires { BeginsString (kinds_of schema.now.partition) row.now }
    ensures string { IsStringOf (kinds_of schema.now.partition) (take result row.now) }
    ensures only { (string rest : List ℕ) → SplitsString (kinds_of schema.now.partition) row.now string rest → length string ≡ result }
    ensures inside { result ≤ length row.now }
{
    front_length(&schema.partition, row)
}
