//! The text of a bound, `P` or `P C`: the components of a partition, and leading ones of its rows. `print_range`
//! calls this once the schema is known; a text that is refused is Usage.
ghost use Rattle.std.specs.Prelude.{◌≡◌};
ghost use Rattle.grammar.specs.Code.{Gives};
ghost use Rattle.key_types.specs.Columns.{columns_of};
ghost use Rattle.key_types.specs.Kinds.{values_of};
ghost use Rattle.scan_tool.specs.Bounds.{bound_at, whole_bound, HasBound, ReadsBound};
ghost use Rattle.scan_tool.specs.Errors.{stop_of, string_stop};

use crate::components::{read_list, read_perhaps};
use byte_comparable::{KeyError, Side, bound_string, partition_string};
use grammar::{Stop, skip_spaces};
use key_types::{NoMemory, Schema, ValueList};
use std::alloc::Global;
use table_reader::BoundString;
use thiserror::Error;

/// Why a text isn't read as a bound.
#[derive(Clone, Copy, Debug, PartialEq, Eq, Error)]
pub enum BoundStop {
    /// It is none, or one of its numbers passes its type, or one of its strings has over 1,024 bytes.
    #[error("not the text of a bound")]
    Refused,
    /// Memory ran out.
    #[error("out of memory")]
    NoMemory,
}

impl From<Stop> for BoundStop {
    ghost from_gives = { λ e f. f ≡ stop_of e };

    fn from(e: Stop) -> BoundStop {
        match e {
            Stop::At(_) => BoundStop::Refused,
            Stop::Memory => BoundStop::NoMemory,
        }
    }
}

impl From<KeyError> for BoundStop {
    ghost from_gives = { λ e f. f ≡ string_stop e };

    fn from(e: KeyError) -> BoundStop {
        match e {
            KeyError::WrongCount | KeyError::WrongType(_) | KeyError::TooLong(_) => {
                BoundStop::Refused
            }
            KeyError::NoMemory => BoundStop::NoMemory,
        }
    }
}

/// The components of a bound: those of its partition, and the leading ones of its rows.
#[derive(Drop)]
struct Named {
    partition: ValueList,
    clustering: ValueList,
}

/// The components at the front of bytes, and the first number marked that passes its type.
fn read_named<'a>(
    alloc: Global,
    schema: &Schema,
    out_of_range: &mut Option<usize>,
    bytes: &'a [u8],
) -> Result<(Named, &'a [u8]), Stop>
    ensures { Gives (λ x. (((values_of x.0.partition, values_of x.0.clustering), out_of_range.new), x.1.now)) result
        (bound_at (columns_of schema.now) out_of_range.old bytes.now) }
{
    let (partition, rest) = read_list(alloc, &schema.partition, out_of_range, bytes)?;
    let (clustering, rest) = read_perhaps(alloc, &schema.clustering, out_of_range, rest)?;
    Ok((
        Named {
            partition,
            clustering,
        },
        rest,
    ))
}

/// The components of a whole text, and how many bytes are left where its first number begins that passes its type.
fn read_whole(alloc: Global, schema: &Schema, text: &[u8]) -> Result<(Named, Option<usize>), Stop>
    ensures { Gives (λ x. ((values_of x.0.partition, values_of x.0.clustering), x.1)) result
        (whole_bound (columns_of schema.now) text.now) }
{
    let mut out_of_range = None;
    let (named, rest) = read_named(alloc, schema, &mut out_of_range, skip_spaces(text))?;
    match rest {
        [] => Ok((named, out_of_range)),
        _ => Err(Stop::At(rest.len())),
    }
}

/// The strings of a bound's components on a side. A lower bound that names no components of rows has its partition's
/// string alone, with which the keys of the partition begin.
fn bound_of(
    alloc: Global,
    schema: &Schema,
    side: Side,
    named: &Named,
) -> Result<BoundString, KeyError>
    ensures { HasBound (columns_of schema.now) side (values_of named.now.partition) (values_of named.now.clustering) result }
{
    let partition = partition_string(alloc, schema, &named.partition)?;
    let clustering = match (side, &named.clustering) {
        (Side::Before, ValueList::End) => None,
        _ => Some(bound_string(alloc, schema, &named.clustering, side)?),
    };
    Ok(BoundString {
        partition,
        clustering,
    })
}

/// The strings of the bound that the text names, on a side of the keys that it names: before them for a lower bound,
/// and after them for an upper one.
pub fn read_bound(
    alloc: Global,
    schema: &Schema,
    side: Side,
    text: &[u8],
) -> Result<BoundString, BoundStop>
    ensures { ReadsBound (columns_of schema.now) side text.now result }
{
    let (named, out_of_range) = read_whole(alloc, schema, text)?;
    if out_of_range.is_some() {
        return Err(BoundStop::Refused);
    }
    let bound = bound_of(alloc, schema, side, &named)?;
    Ok(bound)
}
