//! Types of components from the front of bytes.
ghost use Rattle.std.specs.Prelude.{◌≡◌, ℕ, Bool, List, Option, Some, None, Result, ⊤, IfOk, IfErr};
ghost use Rattle.key_types.specs.Kinds.{kind_of, kinds_of, Kind};
ghost use Rattle.grammar.specs.Code.{Gives};
ghost use Rattle.grammar.specs.Reading.{or_else, ends, named_word_at};
ghost use Rattle.grammar.specs.declared.stop.Stop.TheVariants.{Memory};
ghost use Rattle.schema_text.specs.Reading.{simple_at, tuple_by, turn_at, type_with, type_closing_at, kind_by, no_types_close, listed, some_kinds, more_by, behind_by, base_at, types_at};

use crate::values::type_ends;
use grammar::{Stop, further, read_sign, read_word};
use key_types::{ColType, TypeList};
use std::alloc::Global;

/// A type, whether a word may follow it at once, and the bytes behind it.
type Typed<'a> = (ColType, bool, &'a [u8]);

/// The first answer, and where that is refused the second; of two refusals the one further on.
fn either<'a>(
    first: Result<Typed<'a>, Stop>,
    second: Result<Typed<'a>, Stop>,
) -> Result<Typed<'a>, Stop>
    ensures { (x y : Result ((Kind × Bool) × List ℕ) ℕ)
        → Gives (λ t. ((kind_of t.0, t.1), t.2.now)) first.entry x
        → Gives (λ t. ((kind_of t.0, t.1), t.2.now)) second.entry y
        → Gives (λ t. ((kind_of t.0, t.1), t.2.now)) result (or_else x y) }
{
    match first {
        Ok(typed) => Ok(typed),
        Err(Stop::Memory) => Err(Stop::Memory),
        Err(stop) => match second {
            Ok(typed) => Ok(typed),
            Err(other) => Err(further(stop, other)),
        },
    }
}

/// A type that is this word.
fn word_type<'a>(kind: ColType, word: &[u8], bytes: &'a [u8]) -> Result<Typed<'a>, Stop>
    ensures { Gives (λ t. ((kind_of t.0, t.1), t.2.now)) result (named_word_at (word.now, kind_of kind) bytes.now) }
{
    let (spaced, rest) = read_word(word, bytes)?;
    Ok((kind, spaced, rest))
}

/// A type of one word.
fn read_simple(bytes: &[u8]) -> Result<Typed<'_>, Stop>
    ensures { Gives (λ t. ((kind_of t.0, t.1), t.2.now)) result (simple_at bytes.now) }
{
    let read = word_type(ColType::Boolean, b"boolean", bytes);
    let read = either(word_type(ColType::Blob, b"blob", bytes), read);
    let read = either(word_type(ColType::Text, b"text", bytes), read);
    let read = either(word_type(ColType::BigInt, b"bigint", bytes), read);
    let read = either(word_type(ColType::Int, b"int", bytes), read);
    let read = either(word_type(ColType::SmallInt, b"smallint", bytes), read);
    either(word_type(ColType::TinyInt, b"tinyint", bytes), read)
}

/// `reversed` where a word may follow: whether spaces stand behind it.
fn read_turn(spaced: bool, bytes: &[u8]) -> Result<(Option<bool>, &[u8]), Stop>
    ensures { Gives (λ x. (x.0, x.1.now)) result (turn_at spaced bytes.now) }
{
    match bytes {
        [b'r', ..] if spaced => {
            let (spaced, rest) = read_word(b"reversed", bytes)?;
            Ok((Some(spaced), rest))
        }
        [b'r', ..] => Err(Stop::At(bytes.len())),
        _ => Ok((None, bytes)),
    }
}

/// The type, or the reversed one.
fn turned_type(alloc: Global, reversed: Option<bool>, kind: ColType) -> Result<ColType, Stop>
    ensures ok { IfOk result (λ t. kind_of t ≡ type_with reversed (kind_of kind)) }
    ensures err { IfErr result (λ e. e ≡ Memory) }
{
    match reversed {
        None => Ok(kind),
        Some(_) => {
            let inner = Box::new(alloc, kind)?;
            Ok(ColType::Reversed(inner))
        }
    }
}

/// What stands behind a type, up to its end.
fn close_type(
    alloc: Global,
    kind: ColType,
    spaced: bool,
    bytes: &[u8],
) -> Result<(ColType, &[u8]), Stop>
    ensures { Gives (λ x. (kind_of x.0, x.1.now)) result (type_closing_at spaced (kind_of kind) bytes.now) }
{
    let (reversed, rest) = read_turn(spaced, bytes)?;
    let rest = type_ends(rest)?;
    let kind = turned_type(alloc, reversed, kind)?;
    Ok((kind, rest))
}

/// Whether what stands behind types may stand there.
fn list_ends(bytes: &[u8]) -> Result<&[u8], Stop>
    ensures { Gives (λ x. (tt, x.now)) result (ends {A = ⊤} no_types_close tt bytes.now) }
{
    match bytes {
        [] | [b';' | b'>' | b')', ..] => Ok(bytes),
        _ => Err(Stop::At(bytes.len())),
    }
}

/// The list of a type and those behind it.
fn joined(alloc: Global, kind: ColType, more: Option<TypeList>) -> Result<TypeList, Stop>
    ensures ok { IfOk result (λ ts. kinds_of ts ≡ listed (kind_of kind) (some_kinds more)) }
    ensures err { IfErr result (λ e. e ≡ Memory) }
{
    let rest = match more {
        None => TypeList::End,
        Some(kinds) => kinds,
    };
    Ok(TypeList::More(Box::new(alloc, kind)?, Box::new(alloc, rest)?))
}

/// A tuple, whose last sign a word may follow at once.
#[cycle(read)]
fn read_tuple(alloc: Global, fuel: usize, bytes: &[u8]) -> Result<Typed<'_>, Stop>
    ensures { Gives (λ t. ((kind_of t.0, t.1), t.2.now)) result (tuple_by (types_at fuel) bytes.now) }
{
    let (_, rest) = read_word(b"tuple", bytes)?;
    let rest = read_sign(b'<', rest)?;
    let (kinds, rest) = read_types(alloc, fuel, rest)?;
    let rest = read_sign(b'>', rest)?;
    Ok((ColType::Tuple(kinds), true, rest))
}

/// A type without `reversed`; without fuel one of one word.
#[cycle(read)]
fn read_base(alloc: Global, fuel: usize, bytes: &[u8]) -> Result<Typed<'_>, Stop>
    ensures { Gives (λ t. ((kind_of t.0, t.1), t.2.now)) result (base_at fuel bytes.now) }
{
    if fuel == 0 {
        return read_simple(bytes);
    }
    either(read_simple(bytes), read_tuple(alloc, fuel - 1, bytes))
}

/// A type.
#[cycle(read)]
fn read_type(alloc: Global, fuel: usize, bytes: &[u8]) -> Result<(ColType, &[u8]), Stop>
    ensures { Gives (λ x. (kind_of x.0, x.1.now)) result (kind_by (base_at fuel) bytes.now) }
{
    let (kind, spaced, rest) = read_base(alloc, fuel, bytes)?;
    close_type(alloc, kind, spaced, rest)
}

/// A comma and the types behind it, where one stands.
#[cycle(read)]
fn read_more(alloc: Global, fuel: usize, bytes: &[u8]) -> Result<(Option<TypeList>, &[u8]), Stop>
    ensures { Gives (λ x. (some_kinds x.0, x.1.now)) result (more_by (types_at fuel) bytes.now) }
{
    match bytes {
        [b',', ..] => {
            let rest = read_sign(b',', bytes)?;
            let (kinds, rest) = read_types(alloc, fuel, rest)?;
            Ok((Some(kinds), rest))
        }
        _ => Ok((None, bytes)),
    }
}

/// The list of a type that was read and of those behind it.
#[cycle(read)]
fn read_behind(
    alloc: Global,
    fuel: usize,
    kind: ColType,
    bytes: &[u8],
) -> Result<(TypeList, &[u8]), Stop>
    ensures { Gives (λ x. (kinds_of x.0, x.1.now)) result (behind_by (types_at fuel) (kind_of kind) bytes.now) }
{
    let (more, rest) = read_more(alloc, fuel, bytes)?;
    let rest = list_ends(rest)?;
    let kinds = joined(alloc, kind, more)?;
    Ok((kinds, rest))
}

/// The one type that is read without fuel.
fn read_last(alloc: Global, bytes: &[u8]) -> Result<(TypeList, &[u8]), Stop>
    ensures { Gives (λ x. (kinds_of x.0, x.1.now)) result (types_at 0 bytes.now) }
{
    let (kind, spaced, rest) = read_simple(bytes)?;
    let (kind, rest) = close_type(alloc, kind, spaced, rest)?;
    let rest = list_ends(rest)?;
    let kinds = joined(alloc, kind, None)?;
    Ok((kinds, rest))
}

/// Types with a comma between each two. Each tuple and each comma takes one of the fuel, so the length of a text is enough for it.
#[cycle(read)]
pub fn read_types(alloc: Global, fuel: usize, bytes: &[u8]) -> Result<(TypeList, &[u8]), Stop>
    ensures { Gives (λ x. (kinds_of x.0, x.1.now)) result (types_at fuel bytes.now) }
{
    if fuel == 0 {
        return read_last(alloc, bytes);
    }
    let (kind, rest) = read_type(alloc, fuel - 1, bytes)?;
    read_behind(alloc, fuel - 1, kind, rest)
}
