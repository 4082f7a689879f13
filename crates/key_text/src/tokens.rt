//! The tokens of literals, from the front of bytes.
ghost use Rattle.std.specs.Prelude.{◌≡◌, ◌≤◌, ◌<◌, ◌+◌, ◌*◌, ◌^◌, ◌∷◌, ◌++◌, [], ℕ, List, length, min, codes, not, Ok, Err, IfOk, IfErr, IfSome, IfNone, ⊤, true, false, Option, Some, None};
ghost use Rattle.std.specs.List.{AllByRecursion, position_from};
ghost use Rattle.grammar.specs.Code.{Gives};
ghost use Rattle.grammar.specs.Exact.{NextIs};
ghost use Rattle.grammar.specs.Reading.{given_at, ends, mapped, map_read, spaces_at, with_front};
ghost use Rattle.grammar.specs.declared.stop.Stop.TheVariants.{At};
ghost use Rattle.key_text.specs.Tokens.{is_digit, is_hex};
ghost use Rattle.key_text.specs.Reading.{digits_at, positive_at, zero_at, magnitude_at, number_at, capped_number, capped_all, quoted_at, quoted_text_at, hex_at, blob_at, no_end, no_close, closing_at, truth_word_at, truth_at};

use crate::quotes::split_quote;
use grammar::{Stop, further, read_word, skip_spaces};
use hex::FromHexError;
use key_types::ByteList;
use std::alloc::Global;

/// Whether what stands behind a value may stand there.
fn value_ends(bytes: &[u8]) -> Result<&[u8], Stop>
    ensures { Gives (λ x. (tt, x.now)) result (ends {A = ⊤} no_end tt bytes.now) }
{
    match bytes {
        [] | [b',' | b')', ..] => Ok(bytes),
        _ => Err(Stop::At(bytes.len())),
    }
}

/// Whether what stands behind the last component of a list may stand there.
pub fn list_ends(bytes: &[u8]) -> Result<&[u8], Stop>
    ensures { Gives (λ x. (tt, x.now)) result (ends {A = ⊤} no_close tt bytes.now) }
{
    match bytes {
        [] | [b')', ..] => Ok(bytes),
        _ => Err(Stop::At(bytes.len())),
    }
}

/// The spaces behind a token, and then the end of a value.
pub fn read_closing(bytes: &[u8]) -> Result<&[u8], Stop>
    ensures { Gives (λ x. (tt, x.now)) result (closing_at bytes.now) }
{
    value_ends(skip_spaces(bytes))
}

/// The next digit and the bytes behind it, and none where no digit stands.
fn next_digit(bytes: &[u8]) -> Option<(u64, &[u8])>
    ensures digit { IfSome result (λ x. (n : ℕ) → digits_at n bytes.now ≡ digits_at (n * 10 + x.0) x.1.now) }
    ensures bound { IfSome result (λ x. x.0 ≤ 9) }
    ensures shorter { IfSome result (λ x. length x.1.now < length bytes.now) }
    ensures none { IfNone result ((n : ℕ) → digits_at n bytes.now ≡ Ok (n, bytes.now)) }
{
    match bytes {
        [b @ b'0'..=b'9', rest @ ..] => Some((u64::from(*b - b'0'), rest)),
        _ => None,
    }
}

/// The digits behind a first one. Numbers above the greatest of 64 bits are read as that.
fn more_digits(first: u64, bytes: &[u8]) -> (u64, &[u8])
    requires { first ≤ 9 }
    ensures { capped_all (digits_at first bytes.now) ≡ Ok (result.0, result.1.now) }
{
    let mut value = first;
    let mut rest = bytes;
    'digits: while let Some((digit, after)) = next_digit(rest) {
        value = value.saturating_mul(10).saturating_add(digit);
        rest = after;
    }
    (value, rest)
}

/// Digits that begin with no 0.
fn read_positive(bytes: &[u8]) -> Result<(u64, &[u8]), Stop>
    ensures { Gives (λ x. (x.0, x.1.now)) result (capped_all (positive_at bytes.now)) }
{
    match bytes {
        [b @ b'1'..=b'9', rest @ ..] => Ok(more_digits(u64::from(*b - b'0'), rest)),
        _ => Err(Stop::At(bytes.len())),
    }
}

/// Digits without leading zeros.
fn read_magnitude(bytes: &[u8]) -> Result<(u64, &[u8]), Stop>
    ensures { Gives (λ x. (x.0, x.1.now)) result (capped_all (magnitude_at bytes.now)) }
{
    match bytes {
        [b'0', b'0'..=b'9', ..] => Err(Stop::At(bytes.len() - 1)),
        [b'0', rest @ ..] => Ok((0, rest)),
        _ => read_positive(bytes),
    }
}

/// A number of any size: whether there is a minus, and the number without it.
pub fn read_number(bytes: &[u8]) -> Result<(bool, u64, &[u8]), Stop>
    ensures { Gives (λ x. ((x.0, x.1), x.2.now)) result (mapped capped_number (number_at bytes.now)) }
{
    match bytes {
        [b'-', rest @ ..] => {
            let (number, rest) = read_positive(rest)?;
            Ok((true, number, rest))
        }
        _ => {
            let (number, rest) = read_magnitude(bytes)?;
            Ok((false, number, rest))
        }
    }
}

/// The bytes of a text behind its first quote, up to its last.
#[tactic(auto, using(crate::proofs::Behind::behind_push, crate::proofs::Behind::behind_more))]
fn read_quoted(alloc: Global, bytes: &[u8]) -> Result<(ByteList, &[u8]), Stop>
    ensures { Gives (λ x. (x.0, x.1.now)) result (quoted_at bytes.now) }
{
    let mut out = ByteList::new(alloc);
    let mut rest = bytes;
    'quotes: while let Some((span, after)) = split_quote(rest) {
        out.extend(span)?;
        let [b'\'', further @ ..] = after else {
            return Ok((out, after));
        };
        out.push(b'\'')?;
        rest = further;
    }
    Err(Stop::At(0))
}

/// A text in quotes in which no quote stands, as it stands; `None` where none is seen.
pub fn read_plain(bytes: &[u8]) -> Option<(&[u8], &[u8])>
    ensures { IfSome result (λ x. quoted_text_at bytes.now ≡ Ok (x.0.now, x.1.now)) }
{
    let [b'\'', rest @ ..] = bytes else {
        return None;
    };
    let (text, after) = split_quote(rest)?;
    match after {
        [b'\'', ..] => None,
        _ => Some((text, after)),
    }
}

/// A text in quotes.
pub fn read_text(alloc: Global, bytes: &[u8]) -> Result<(ByteList, &[u8]), Stop>
    ensures { Gives (λ x. (x.0, x.1.now)) result (quoted_text_at bytes.now) }
{
    match bytes {
        [b'\'', rest @ ..] => read_quoted(alloc, rest),
        _ => Err(Stop::At(bytes.len())),
    }
}

/// Whether the byte is a hexadecimal digit.
fn is_hex(byte: u8) -> bool
    ensures { result ≡ is_hex byte }
{
    byte.is_ascii_hexdigit()
}

/// Where the first byte stands that is no hexadecimal digit.
fn digits_end(bytes: &[u8]) -> Option<usize>
    ensures { result ≡ position_from (λ b. not (is_hex b)) 0 bytes.now }
{
    bytes.iter().position(|b| !is_hex(*b))
}

/// The hexadecimal digits at the front, and what stands behind them.
fn split_digits(bytes: &[u8]) -> (&[u8], &[u8])
    ensures whole { bytes.now ≡ result.0.now ++ result.1.now }
    ensures digits { AllByRecursion (λ b. is_hex b ≡ true) result.0.now }
    ensures behind { NextIs (λ b. is_hex b ≡ false) result.1.now }
{
    let end = digits_end(bytes).unwrap_or(bytes.len());
    bytes.split_at(end)
}

/// The bytes of a blob, two digits for each.
fn read_hex(alloc: Global, bytes: &[u8]) -> Result<(ByteList, &[u8]), Stop>
    ensures { Gives (λ x. (x.0, x.1.now)) result (hex_at bytes.now) }
{
    let (digits, rest) = split_digits(bytes);
    match hex::decode(alloc, digits) {
        Ok(decoded) => Ok((ByteList::from_vec(decoded), rest)),
        Err(FromHexError::OddLength) => Err(Stop::At(rest.len())),
        Err(_) => Err(Stop::Memory),
    }
}

/// `0x` and two hexadecimal digits for each byte.
pub fn read_blob(alloc: Global, bytes: &[u8]) -> Result<(ByteList, &[u8]), Stop>
    ensures { Gives (λ x. (x.0, x.1.now)) result (blob_at bytes.now) }
{
    match bytes {
        [b'0', b'x', rest @ ..] => read_hex(alloc, rest),
        [b'0', rest @ ..] => Err(Stop::At(rest.len())),
        _ => Err(Stop::At(bytes.len())),
    }
}

/// The word of a boolean, and whether spaces stand behind it.
fn read_truth_word(bytes: &[u8]) -> Result<(bool, bool, &[u8]), Stop>
    ensures { Gives (λ x. ((x.0, x.1), x.2.now)) result (truth_word_at bytes.now) }
{
    match read_word(b"true", bytes) {
        Ok((spaced, rest)) => Ok((true, spaced, rest)),
        Err(first) => match read_word(b"false", bytes) {
            Ok((spaced, rest)) => Ok((false, spaced, rest)),
            Err(second) => Err(further(first, second)),
        },
    }
}

/// A boolean, and then the end of a value.
pub fn read_truth(bytes: &[u8]) -> Result<(bool, &[u8]), Stop>
    ensures { Gives (λ x. (x.0, x.1.now)) result (truth_at bytes.now) }
{
    let (truth, _, rest) = read_truth_word(bytes)?;
    let rest = value_ends(rest)?;
    Ok((truth, rest))
}
