//! Types of values from the front of bytes.
ghost use Rattle.std.specs.Prelude.{◌≡◌, ⊤};
ghost use Rattle.grammar.specs.Code.{Gives};
ghost use Rattle.grammar.specs.Reading.{one_of, ends};
ghost use Rattle.schema_text.specs.Reading.{value_type_word_at, value_type_at, static_type_at, no_type_end};

use grammar::{Stop, further, read_sign, read_word};
use key_types::ValueType;

/// Whether what stands behind a type may stand there.
pub fn type_ends(bytes: &[u8]) -> Result<&[u8], Stop>
    ensures { Gives (λ x. (tt, x.now)) result (ends {A = ⊤} no_type_end tt bytes.now) }
{
    match bytes {
        [] | [b',' | b';' | b'>' | b')', ..] => Ok(bytes),
        _ => Err(Stop::At(bytes.len())),
    }
}

/// The word of a value type, and whether spaces stand behind it.
fn read_value_word(bytes: &[u8]) -> Result<(ValueType, bool, &[u8]), Stop>
    ensures { Gives (λ x. ((x.0, x.1), x.2.now)) result (value_type_word_at bytes.now) }
{
    match read_word(b"text", bytes) {
        Ok((spaced, rest)) => Ok((ValueType::Text, spaced, rest)),
        Err(first) => match read_word(b"blob", bytes) {
            Ok((spaced, rest)) => Ok((ValueType::Blob, spaced, rest)),
            Err(second) => Err(further(first, second)),
        },
    }
}

/// A value type.
pub fn read_value_type(bytes: &[u8]) -> Result<(ValueType, &[u8]), Stop>
    ensures { Gives (λ x. (x.0, x.1.now)) result (value_type_at bytes.now) }
{
    let (value, _, rest) = read_value_word(bytes)?;
    let rest = type_ends(rest)?;
    Ok((value, rest))
}

/// The type of a static value behind a semicolon, where one stands, and the last sign.
pub fn read_static(bytes: &[u8]) -> Result<(Option<ValueType>, &[u8]), Stop>
    ensures { Gives (λ x. (x.0, x.1.now)) result (static_type_at bytes.now) }
{
    match bytes {
        [b';', ..] => {
            let rest = read_sign(b';', bytes)?;
            let (value, rest) = read_value_type(rest)?;
            let rest = read_sign(b')', rest)?;
            Ok((Some(value), rest))
        }
        _ => {
            let rest = read_sign(b')', bytes)?;
            Ok((None, rest))
        }
    }
}
