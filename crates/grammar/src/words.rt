//! Words, signs and spaces, which the readings of schemas, of literals and of scripts share.
ghost use Rattle.std.specs.Prelude.{◌≡◌, ◌∷◌, [], ⊤, true};
ghost use Rattle.grammar.specs.Code.{Gives};
ghost use Rattle.grammar.specs.Reading.{given_at, gap_at, without_spaces, is_letter, token, sign_at};

use crate::Stop;

/// The bytes behind the spaces at the front.
pub fn skip_spaces(bytes: &[u8]) -> &[u8]
    ensures { result.now ≡ without_spaces bytes.now }
{
    let mut rest = bytes;
    while let [b' ', after @ ..] = rest {
        rest = after;
    }
    rest
}

/// The bytes behind these given ones.
fn given<'a>(word: &[u8], bytes: &'a [u8]) -> Result<&'a [u8], Stop>
    ensures { Gives (λ x. (tt, x.now)) result (given_at word.now bytes.now) }
{
    let mut left = word;
    let mut rest = bytes;
    while let [c, more @ ..] = left {
        match rest {
            [b, after @ ..] if *b == *c => rest = after,
            _ => return Err(Stop::At(rest.len())),
        }
        left = more;
    }
    Ok(rest)
}

/// Whether the byte is one of `a` to `z`.
fn letter(byte: u8) -> bool
    ensures { result ≡ is_letter byte }
{
    byte >= b'a' && byte <= b'z'
}

/// The spaces behind a token, and whether there are any. Behind a word no letter stands at once.
fn spaces(word: bool, bytes: &[u8]) -> Result<(bool, &[u8]), Stop>
    ensures { Gives (λ x. (x.0, x.1.now)) result (gap_at word bytes.now) }
{
    match bytes {
        [b' ', after @ ..] => Ok((true, skip_spaces(after))),
        [byte, ..] if word && letter(*byte) => Err(Stop::At(bytes.len())),
        _ => Ok((false, bytes)),
    }
}

/// A word with the spaces behind it: whether there are any, and the bytes behind them.
pub fn read_word<'a>(word: &[u8], bytes: &'a [u8]) -> Result<(bool, &'a [u8]), Stop>
    ensures { Gives (λ x. (x.0, x.1.now)) result (token true word.now bytes.now) }
{
    let rest = given(word, bytes)?;
    spaces(true, rest)
}

/// A sign with the spaces behind it.
pub fn read_sign(sign: u8, bytes: &[u8]) -> Result<&[u8], Stop>
    ensures { Gives (λ x. (tt, x.now)) result (sign_at sign bytes.now) }
{
    match bytes {
        [byte, rest @ ..] if *byte == sign => Ok(skip_spaces(rest)),
        _ => Err(Stop::At(bytes.len())),
    }
}
