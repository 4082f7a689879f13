//! Bounds read from their text, with the strings that they stand for: a load reads those of its shards here.
//!
//! The strings read so far are always those of the lists before the bytes left: one at a time, each above the last.
ghost use Rattle.std.specs.Prelude.{◌≡◌, ◌↔◌, IsTrue};
ghost use Rattle.key_types.specs.Columns.{columns_of};
ghost use Rattle.key_types.specs.Kinds.{kinds_of};
ghost use Rattle.bounds_text.specs.declared.reading.BoundsError.TheVariants as bounds_error;
ghost use Rattle.bounds_text.specs.Bounds.{ReadsBounds};
ghost use Rattle.bounds_text.specs.Steps.{EndsUtf8, FindsBound, IsAboveAll, AddsBound};

use byte_comparable::LONGEST_STRING;
use byte_order::compare_bytes;
use grammar::{Stop, skip_spaces};
use key_spelling::spell_list;
use key_types::{KeyBytes, NoMemory, Schema, TypeList};
use shard_table::KeyList;
use std::alloc::Global;
use thiserror::Error;

/// Why no bounds were read.
#[derive(Clone, Copy, PartialEq, Eq, Debug, Error)]
pub enum BoundsError {
    /// The text is not one of bounds.
    #[error("not a text of bounds")]
    Refused,
    /// Memory ran out.
    #[error("out of memory")]
    NoMemory,
}

impl From<NoMemory> for BoundsError {
    ghost from_gives = { λ _ e. e ≡ bounds_error.NoMemory };

    fn from(_e: NoMemory) -> BoundsError {
        BoundsError::NoMemory
    }
}

/// The greatest count of bounds: a table has at most eight shards.
const MOST_BOUNDS: usize = 7;

/// The string of the bound at the front of the bytes, and the bytes behind its list.
fn read_bound<'a>(
    alloc: Global,
    kinds: &TypeList,
    bytes: &'a [u8],
) -> Result<(KeyBytes, &'a [u8]), BoundsError>
    requires { EndsUtf8 bytes.now }
    ensures { FindsBound (kinds_of kinds.now) bytes.now (λ x. (x.0, x.1.now)) result }
{
    let mut bound = KeyBytes::new(alloc);
    let mut out_of_range = None;
    match spell_list(alloc, kinds, &mut out_of_range, bytes, &mut bound) {
        Ok(rest) if out_of_range.is_none() && bound.len() <= LONGEST_STRING => Ok((bound, rest)),
        Ok(_) => Err(BoundsError::Refused),
        Err(Stop::Memory) => Err(BoundsError::NoMemory),
        Err(Stop::At(_)) => Err(BoundsError::Refused),
    }
}

/// Whether the string is above all bounds, which ascend.
fn is_above_all(bounds: &KeyList, string: &[u8]) -> bool
    ensures { IsTrue result ↔ IsAboveAll bounds.now string.now }
{
    match bounds.as_slice().last() {
        Some(last) => compare_bytes(last.as_slice(), string).is_lt(),
        None => true,
    }
}

/// Puts a bound behind the others, where there is room for it and it is above them.
fn add_bound(bounds: &mut KeyList, bound: KeyBytes) -> Result<(), BoundsError>
    ensures { AddsBound bounds.old bound bounds.new result }
{
    if bounds.len() >= MOST_BOUNDS || !is_above_all(bounds, bound.as_slice()) {
        return Err(BoundsError::Refused);
    }
    bounds.push(bound)?;
    Ok(())
}

/// Reads the strings of the bounds that the text spells: at most seven lists of the components of a partition, whose
/// strings ascend and have at most 1,024 bytes each. Spaces may stand before, between and behind them; the empty text
/// has none.
///
/// Errors: `Refused` exactly where the text is none of bounds under the schema; `NoMemory`.
pub fn read_bounds(alloc: Global, schema: &Schema, text: &str) -> Result<KeyList, BoundsError>
    ensures { ReadsBounds (columns_of schema.now) text.now result }
{
    let mut bounds = KeyList::new(alloc);
    let mut rest = skip_spaces(text.as_bytes());
    'bounds: while !rest.is_empty() {
        let (bound, after) = read_bound(alloc, &schema.partition, rest)?;
        add_bound(&mut bounds, bound)?;
        rest = after;
    }
    Ok(bounds)
}
