//! Literals of every type from the front of bytes. The first number that passes its type is marked, and read on.
ghost use Rattle.std.specs.Prelude.{◌≡◌, ◌≤◌, ℕ, ◌^◌, Option, Some, None, Ok, IfSome};
ghost use Rattle.grammar.specs.Code.{Gives};
ghost use Rattle.key_types.specs.Kinds.{kind_of, kinds_of, value_of, values_of};
ghost use Rattle.key_text.specs.Marking.{kept, first_mark, marked_number_at, marked_at, marked_all, marked_rest, marked_list};
ghost use Rattle.key_text.specs.Reading.{closed_read, quoted_text_at, blob_at};

use crate::tokens::{
    list_ends, read_blob, read_closing, read_number, read_plain, read_text, read_truth,
};
use grammar::{Stop, read_sign};
use key_types::{ByteList, ColType, TypeList, Value, ValueList};
use std::alloc::Global;

/// The number, where it is within the bound: from the negative of the bound on and below it.
fn within(bound: u64, negative: bool, number: u64) -> Option<i64>
    requires { bound ≤ 2 ^ 63 }
    ensures { result ≡ kept bound negative number }
{
    if negative {
        if number == 0 {
            Some(0)
        } else if number <= bound {
            Some(-1 - (number - 1) as i64)
        } else {
            None
        }
    } else if number < bound {
        Some(number as i64)
    } else {
        None
    }
}

/// Marks a place, unless one before it is marked.
fn mark(out_of_range: &mut Option<usize>, left: usize)
    ensures { out_of_range.new ≡ first_mark out_of_range.old left }
{
    if out_of_range.is_none() {
        *out_of_range = Some(left);
    }
}

/// A number of a type whose numbers are within the bound. One that isn't is marked, and read as 0.
fn read_within<'a>(
    bound: u64,
    out_of_range: &mut Option<usize>,
    bytes: &'a [u8],
) -> Result<(Value, &'a [u8]), Stop>
    requires { bound ≤ 2 ^ 63 }
    ensures { Gives (λ x. ((value_of x.0, out_of_range.new), x.1.now)) result (marked_number_at bound out_of_range.old bytes.now) }
{
    let (negative, number, rest) = read_number(bytes)?;
    let rest = read_closing(rest)?;
    match within(bound, negative, number) {
        Some(number) => Ok((Value::Number(number), rest)),
        None => {
            mark(out_of_range, bytes.len());
            Ok((Value::Number(0), rest))
        }
    }
}

/// A text in which no quote stands, as it stands, up to the end of a value; `None` where none is seen. It takes no memory.
pub fn plain_text(bytes: &[u8]) -> Option<(&[u8], &[u8])>
    ensures { IfSome result (λ x. closed_read quoted_text_at bytes.now ≡ Ok (x.0.now, x.1.now)) }
{
    let (text, rest) = read_plain(bytes)?;
    match read_closing(rest) {
        Ok(rest) => Some((text, rest)),
        Err(_) => None,
    }
}

/// A text, up to the end of a value.
pub fn read_closed_text(alloc: Global, bytes: &[u8]) -> Result<(ByteList, &[u8]), Stop>
    ensures { Gives (λ x. (x.0, x.1.now)) result (closed_read quoted_text_at bytes.now) }
{
    let (text, rest) = read_text(alloc, bytes)?;
    let rest = read_closing(rest)?;
    Ok((text, rest))
}

/// A blob, up to the end of a value.
pub fn read_closed_blob(alloc: Global, bytes: &[u8]) -> Result<(ByteList, &[u8]), Stop>
    ensures { Gives (λ x. (x.0, x.1.now)) result (closed_read blob_at bytes.now) }
{
    let (blob, rest) = read_blob(alloc, bytes)?;
    let rest = read_closing(rest)?;
    Ok((blob, rest))
}

/// A value of the type and the bytes behind it. The first number that passes its type is marked by how many bytes are left where it begins.
#[cycle(read)]
pub fn read_marked<'a>(
    alloc: Global,
    kind: &ColType,
    out_of_range: &mut Option<usize>,
    bytes: &'a [u8],
) -> Result<(Value, &'a [u8]), Stop>
    ensures { Gives (λ x. ((value_of x.0, out_of_range.new), x.1.now)) result (marked_at (kind_of kind.now) out_of_range.old bytes.now) }
{
    match kind {
        ColType::TinyInt => read_within(0x80, out_of_range, bytes),
        ColType::SmallInt => read_within(0x8000, out_of_range, bytes),
        ColType::Int => read_within(0x8000_0000, out_of_range, bytes),
        ColType::BigInt => read_within(0x8000_0000_0000_0000, out_of_range, bytes),
        ColType::Text => {
            let (text, rest) = read_closed_text(alloc, bytes)?;
            Ok((Value::Bytes(text), rest))
        }
        ColType::Blob => {
            let (blob, rest) = read_closed_blob(alloc, bytes)?;
            Ok((Value::Bytes(blob), rest))
        }
        ColType::Boolean => {
            let (truth, rest) = read_truth(bytes)?;
            Ok((Value::Truth(truth), rest))
        }
        ColType::Tuple(kinds) => {
            let (values, rest) = read_marked_list(alloc, kinds, out_of_range, bytes)?;
            Ok((Value::Tuple(values), rest))
        }
        ColType::Reversed(inner) => read_marked(alloc, inner, out_of_range, bytes),
    }
}

/// Components in parentheses, one of each type.
#[cycle(read)]
pub fn read_marked_list<'a>(
    alloc: Global,
    kinds: &TypeList,
    out_of_range: &mut Option<usize>,
    bytes: &'a [u8],
) -> Result<(ValueList, &'a [u8]), Stop>
    ensures { Gives (λ x. ((values_of x.0, out_of_range.new), x.1.now)) result (marked_list (kinds_of kinds.now) out_of_range.old bytes.now) }
{
    let rest = read_sign(b'(', bytes)?;
    let (values, rest) = read_marked_all(alloc, kinds, out_of_range, rest)?;
    let rest = read_sign(b')', rest)?;
    Ok((values, rest))
}

/// Components with a comma between each two.
#[cycle(read)]
fn read_marked_all<'a>(
    alloc: Global,
    kinds: &TypeList,
    out_of_range: &mut Option<usize>,
    bytes: &'a [u8],
) -> Result<(ValueList, &'a [u8]), Stop>
    ensures { Gives (λ x. ((values_of x.0, out_of_range.new), x.1.now)) result (marked_all (kinds_of kinds.now) out_of_range.old bytes.now) }
{
    match kinds {
        TypeList::End => {
            let rest = list_ends(bytes)?;
            Ok((ValueList::End, rest))
        }
        TypeList::More(kind, kinds) => {
            let (value, rest) = read_marked(alloc, kind, out_of_range, bytes)?;
            let (values, rest) = read_marked_rest(alloc, kinds, out_of_range, rest)?;
            let values = ValueList::More(Box::new(alloc, value)?, Box::new(alloc, values)?);
            Ok((values, rest))
        }
    }
}

/// Components with a comma before each.
#[cycle(read)]
fn read_marked_rest<'a>(
    alloc: Global,
    kinds: &TypeList,
    out_of_range: &mut Option<usize>,
    bytes: &'a [u8],
) -> Result<(ValueList, &'a [u8]), Stop>
    ensures { Gives (λ x. ((values_of x.0, out_of_range.new), x.1.now)) result (marked_rest (kinds_of kinds.now) out_of_range.old bytes.now) }
{
    match kinds {
        TypeList::End => {
            let rest = list_ends(bytes)?;
            Ok((ValueList::End, rest))
        }
        TypeList::More(kind, kinds) => {
            let rest = read_sign(b',', bytes)?;
            let (value, rest) = read_marked(alloc, kind, out_of_range, rest)?;
            let (values, rest) = read_marked_rest(alloc, kinds, out_of_range, rest)?;
            let values = ValueList::More(Box::new(alloc, value)?, Box::new(alloc, values)?);
            Ok((values, rest))
        }
    }
}
