//! Values and lists from whole texts, with the exact refusals.
ghost use Rattle.std.specs.Prelude.{◌≡◌, IsTrue, None};
ghost use Rattle.std.specs.Str.{is_utf8};
ghost use Rattle.grammar.specs.Code.{Gives};
ghost use Rattle.grammar.specs.Reading.{then_read, spaces_at, whole};
ghost use Rattle.key_types.specs.Kinds.{kind_of, kinds_of, value_of, values_of};
ghost use Rattle.key_text.specs.Marking.{marked_at, marked_list};
ghost use Rattle.key_text.specs.Answers.{ReadsValue, ReadsList};

use crate::values::{read_marked, read_marked_list};
use grammar::{Stop, skip_spaces};
use key_types::{ColType, TypeList, Value, ValueList};
use std::alloc::Global;
use thiserror::Error;

/// Why a text is no literal.
#[derive(Clone, Copy, Debug, PartialEq, Eq, Error)]
pub enum LiteralError {
    /// It isn't of the grammar with numbers of any size: so many bytes are its longest prefix that begins a text of the grammar.
    #[error("bad token at {0}")]
    BadToken(usize),
    /// At this place the first number begins that passes its type.
    #[error("number out of range at {0}")]
    OutOfRange(usize),
    /// Memory ran out.
    #[error("out of memory")]
    NoMemory,
}

/// A value of the type from the whole text, with the first number marked that passes its type.
fn whole_value(alloc: Global, kind: &ColType, text: &[u8]) -> Result<(Value, Option<usize>), Stop>
    ensures { Gives (λ x. (value_of x.0, x.1)) result (whole (then_read spaces_at (λ _. marked_at (kind_of kind.now) None)) text.now) }
{
    let mut out_of_range = None;
    let (value, rest) = read_marked(alloc, kind, &mut out_of_range, skip_spaces(text))?;
    if rest.is_empty() {
        Ok((value, out_of_range))
    } else {
        Err(Stop::At(rest.len()))
    }
}

/// Components in parentheses from the whole text, with the first number marked that passes its type.
fn whole_list(
    alloc: Global,
    kinds: &TypeList,
    text: &[u8],
) -> Result<(ValueList, Option<usize>), Stop>
    ensures { Gives (λ x. (values_of x.0, x.1)) result (whole (then_read spaces_at (λ _. marked_list (kinds_of kinds.now) None)) text.now) }
{
    let mut out_of_range = None;
    let (values, rest) = read_marked_list(alloc, kinds, &mut out_of_range, skip_spaces(text))?;
    if rest.is_empty() {
        Ok((values, out_of_range))
    } else {
        Err(Stop::At(rest.len()))
    }
}

/// The value that a text spells under its type. A text that isn't of the grammar is refused before a number that passes its type.
pub fn read_value(alloc: Global, kind: &ColType, text: &[u8]) -> Result<Value, LiteralError>
    requires { IsTrue (is_utf8 text.now) }
    ensures { ReadsValue (kind_of kind.now) text.now result }
{
    match whole_value(alloc, kind, text) {
        Ok((value, None)) => Ok(value),
        Ok((_, Some(left))) => Err(LiteralError::OutOfRange(text.len() - left)),
        Err(Stop::Memory) => Err(LiteralError::NoMemory),
        Err(Stop::At(left)) => Err(LiteralError::BadToken(text.len() - left)),
    }
}

/// The components that a text spells under their types. A text that isn't of the grammar is refused before a number that passes its type.
pub fn read_list(alloc: Global, kinds: &TypeList, text: &[u8]) -> Result<ValueList, LiteralError>
    requires { IsTrue (is_utf8 text.now) }
    ensures { ReadsList (kinds_of kinds.now) text.now result }
{
    match whole_list(alloc, kinds, text) {
        Ok((values, None)) => Ok(values),
        Ok((_, Some(left))) => Err(LiteralError::OutOfRange(text.len() - left)),
        Err(Stop::Memory) => Err(LiteralError::NoMemory),
        Err(Stop::At(left)) => Err(LiteralError::BadToken(text.len() - left)),
    }
}
