//! The strings of partitions, of rows within them and of bounds, from values that need not fit: what has no string is
//! refused.
ghost use Rattle.std.specs.Prelude.{◌≡◌, ◌≤◌, ◌<◌, ◌+◌, ◌^◌, ◌++◌, [], nat_eq, nat_le, IfNone, IfOk, OnOk};
ghost use Rattle.byte_comparable.specs.declared.strings.KeyError.TheVariants.{NoMemory};
ghost use Rattle.key_types.specs.Kinds.{kinds_of, values_of};
ghost use Rattle.key_types.specs.Layout.{count_of};
ghost use Rattle.byte_comparable.specs.Encoding.{components, bound_with, LeadFits};
ghost use Rattle.byte_comparable.specs.Strings.{value_count, string_of, bound_of, bound_end, first_misfit_from, checked_string, AnswersString};

use crate::encoding::{SEPARATOR, TERMINATOR, encode_into};
use key_types::{ByteList, KeyBytes, NoMemory, Schema, TypeList, ValueList, fits};
use std::alloc::Global;
use thiserror::Error;

/// Why values have no string.
#[derive(Clone, Copy, Debug, PartialEq, Eq, Error)]
pub enum KeyError {
    /// There are not as many values as components; for a bound, there are more.
    #[error("wrong count of values")]
    WrongCount,
    /// The value at this place, from 0, is the first that doesn't fit its type.
    #[error("value {0} does not fit its type")]
    WrongType(usize),
    /// The string would have this many bytes, which is over 1,024.
    #[error("the string would have {0} bytes")]
    TooLong(usize),
    /// Memory ran out.
    #[error("out of memory")]
    NoMemory,
}

impl From<NoMemory> for KeyError {
    ghost from_gives = { λ _ e. e ≡ NoMemory };

    fn from(_e: NoMemory) -> KeyError {
        KeyError::NoMemory
    }
}

/// The side of the rows of a bound on which its string lies.
#[derive(Clone, Copy, Debug, PartialEq, Eq)]
pub enum Side {
    /// Before them.
    Before,
    /// Behind them.
    After,
}

/// The greatest length of a string, in bytes.
pub const LONGEST_STRING: usize = 1024;

/// The room, in bytes, that a string is given at first, so that most never grow.
const ROOM: usize = 24;

/// The last byte of a bound string before the rows: it is below the separator and the terminator.
const BEFORE: u8 = 0x20;

/// The last byte of a bound string behind the rows: it is above the separator and the terminator.
const AFTER: u8 = 0x60;

/// Whether there are as many values as types.
fn same_count(kinds: &TypeList, values: &ValueList) -> bool
    ensures { result ≡ nat_eq (value_count (values_of values.now)) (count_of (kinds_of kinds.now)) }
{
    match (kinds, values) {
        (TypeList::End, ValueList::End) => true,
        (TypeList::More(_, kinds), ValueList::More(_, values)) => same_count(kinds, values),
        _ => false,
    }
}

/// Whether there are at most as many values as types.
fn at_most(kinds: &TypeList, values: &ValueList) -> bool
    ensures { result ≡ nat_le (value_count (values_of values.now)) (count_of (kinds_of kinds.now)) }
{
    match (kinds, values) {
        (_, ValueList::End) => true,
        (TypeList::More(_, kinds), ValueList::More(_, values)) => at_most(kinds, values),
        _ => false,
    }
}

/// The place of the first value that doesn't fit, counted on from `at`.
fn first_misfit(at: usize, kinds: &TypeList, values: &ValueList) -> Option<usize>
    requires { at + count_of (kinds_of kinds.now) < 2 ^ 64 }
    ensures place { result ≡ first_misfit_from at (kinds_of kinds.now) (values_of values.now) }
    ensures fit { IfNone result (LeadFits (kinds_of kinds.now) (values_of values.now)) }
{
    match (kinds, values) {
        (TypeList::More(kind, kinds), ValueList::More(value, values)) => {
            if fits(kind, value) {
                first_misfit(at + 1, kinds, values)
            } else {
                Some(at)
            }
        }
        _ => None,
    }
}

/// Appends a separator and the encoding for each component that there is.
fn put_leading(kinds: &TypeList, values: &ValueList, out: &mut ByteList) -> Result<(), NoMemory>
    requires { LeadFits (kinds_of kinds.now) (values_of values.now) }
    ensures { OnOk result (out.new ≡ out.old ++ components (kinds_of kinds.now) (values_of values.now)) }
{
    match (kinds, values) {
        (TypeList::More(kind, kinds), ValueList::More(value, values)) => {
            out.push(SEPARATOR)?;
            encode_into(kind, value, out)?;
            put_leading(kinds, values, out)
        }
        _ => Ok(()),
    }
}

/// No bytes, with room for most strings.
fn empty_string(alloc: Global) -> Result<KeyBytes, NoMemory>
    ensures { IfOk result (λ string. string ≡ []) }
{
    Ok(ByteList::from_vec(Vec::with_capacity(alloc, ROOM)?))
}

/// The string of the components that there are, with a last byte.
fn string_with(
    alloc: Global,
    kinds: &TypeList,
    values: &ValueList,
    last: u8,
) -> Result<KeyBytes, KeyError>
    requires { count_of (kinds_of kinds.now) ≤ 8 }
    ensures { let kinds = kinds_of kinds.now in
        let values = values_of values.now in
        AnswersString result (checked_string (first_misfit_from 0 kinds values) (bound_with last kinds values)) }
{
    if let Some(at) = first_misfit(0, kinds, values) {
        return Err(KeyError::WrongType(at));
    }
    let mut string = empty_string(alloc)?;
    put_leading(kinds, values, &mut string)?;
    string.push(last)?;
    if string.len() > LONGEST_STRING {
        return Err(KeyError::TooLong(string.len()));
    }
    Ok(string)
}

/// The string of all components.
fn whole_string(alloc: Global, kinds: &TypeList, values: &ValueList) -> Result<KeyBytes, KeyError>
    requires { count_of (kinds_of kinds.now) ≤ 8 }
    ensures { AnswersString result (string_of (kinds_of kinds.now) (values_of values.now)) }
{
    if !same_count(kinds, values) {
        return Err(KeyError::WrongCount);
    }
    string_with(alloc, kinds, values, TERMINATOR)
}

/// The string of a partition: the separator and the encoding for each component, then the terminator.
///
/// The refusals come in the order of `KeyError`; only want of memory is free.
pub fn partition_string(
    alloc: Global,
    schema: &Schema,
    values: &ValueList,
) -> Result<KeyBytes, KeyError>
    ensures { AnswersString result (string_of (kinds_of schema.now.partition) (values_of values.now)) }
{
    whole_string(alloc, &schema.partition, values)
}

/// The string of a row within its partition: the separator and the encoding for each component, then the terminator.
///
/// The refusals come in the order of `KeyError`; only want of memory is free.
pub fn clustering_string(
    alloc: Global,
    schema: &Schema,
    values: &ValueList,
) -> Result<KeyBytes, KeyError>
    ensures { AnswersString result (string_of (kinds_of schema.now.clustering) (values_of values.now)) }
{
    whole_string(alloc, &schema.clustering, values)
}

/// The string that lies on a side of all rows of a partition with these leading clustering components:
/// the separator and the encoding for each of them, then the last byte of the side.
///
/// The refusals come in the order of `KeyError`; only want of memory is free.
pub fn bound_string(
    alloc: Global,
    schema: &Schema,
    values: &ValueList,
    side: Side,
) -> Result<KeyBytes, KeyError>
    ensures { AnswersString result (bound_of side (kinds_of schema.now.clustering) (values_of values.now)) }
{
    if !at_most(&schema.clustering, values) {
        return Err(KeyError::WrongCount);
    }
    string_with(alloc, &schema.clustering, values, last_byte_of(side))
}

/// The last byte of a bound string.
fn last_byte_of(side: Side) -> u8
    ensures { result ≡ bound_end side }
{
    match side {
        Side::Before => BEFORE,
        Side::After => AFTER,
    }
}
