//! Values of every type from the front of bytes, as they stand or complemented: `key_printing` reads by them too.
ghost use Rattle.std.specs.Prelude.{◌≡◌};
ghost use Rattle.grammar.specs.Code.{Gives};
ghost use Rattle.key_types.specs.Kinds.{kind_of, kinds_of, value_of, values_of};
ghost use Rattle.key_decode.specs.Reading.{seen, value_at, values_at};

use crate::numbers::{flipped, read_big, read_sign, read_signed, read_truth};
use crate::texts::read_text;
use byte_comparable::{SEPARATOR, TERMINATOR};
use grammar::Stop;
use key_types::{ColType, TypeList, Value, ValueList};
use std::alloc::Global;

/// A value of the type, whose texts may be any bytes, and the bytes behind it. Behind an odd count of reversed
/// types the complements of the bytes are read.
#[cycle(read)]
pub fn read_value<'a>(
    alloc: Global,
    kind: &ColType,
    complemented: bool,
    bytes: &'a [u8],
) -> Result<(Value, &'a [u8]), Stop>
    ensures { Gives (λ x. (value_of x.0, seen complemented x.1.now)) result (value_at (kind_of kind.now) (seen complemented bytes.now)) }
{
    match kind {
        ColType::TinyInt => read_signed(complemented, 1, 0x80, bytes),
        ColType::SmallInt => read_signed(complemented, 2, 0x8000, bytes),
        ColType::Int => read_signed(complemented, 4, 0x8000_0000, bytes),
        ColType::BigInt => read_big(complemented, bytes),
        ColType::Text | ColType::Blob => {
            let (text, rest) = read_text(alloc, complemented, bytes)?;
            Ok((Value::Bytes(text), rest))
        }
        ColType::Boolean => read_truth(complemented, bytes),
        ColType::Tuple(kinds) => {
            let (values, rest) = read_values(alloc, kinds, complemented, bytes)?;
            Ok((Value::Tuple(values), rest))
        }
        ColType::Reversed(inner) => read_value(alloc, inner, flipped(complemented), bytes),
    }
}

/// A value of each type, each behind a separator, and the terminator.
#[cycle(read)]
pub fn read_values<'a>(
    alloc: Global,
    kinds: &TypeList,
    complemented: bool,
    bytes: &'a [u8],
) -> Result<(ValueList, &'a [u8]), Stop>
    ensures { Gives (λ x. (values_of x.0, seen complemented x.1.now)) result (values_at (kinds_of kinds.now) (seen complemented bytes.now)) }
{
    match kinds {
        TypeList::End => {
            let rest = read_sign(complemented, TERMINATOR, bytes)?;
            Ok((ValueList::End, rest))
        }
        TypeList::More(kind, kinds) => {
            let rest = read_sign(complemented, SEPARATOR, bytes)?;
            let (value, rest) = read_value(alloc, kind, complemented, rest)?;
            let (values, rest) = read_values(alloc, kinds, complemented, rest)?;
            let value = Box::new(alloc, value)?;
            let values = Box::new(alloc, values)?;
            Ok((ValueList::More(value, values), rest))
        }
    }
}
