//! Schemas from their texts: those that a user gives, and the canonical one that a file holds.
ghost use Rattle.std.specs.Prelude.{◌≡◌, ◌+◌, ℕ, List, length, Err, IfOk, IsTrue, ◌↔◌};
ghost use Rattle.grammar.specs.Code.{Gives};
ghost use Rattle.grammar.specs.Reading.{whole, by_first};
ghost use Rattle.key_types.specs.Kinds.{kinds_of};
ghost use Rattle.schema_text.specs.Parts.{columns_of_parts, AreTextColumns, Bounded};
ghost use Rattle.schema_text.specs.Reading.{closed_at, clustering_at, columns_at};
ghost use Rattle.schema_text.specs.Answers.{Parses, ReadsSchemaText, ReadsCanonical};
ghost use Rattle.key_types.specs.Columns.{columns_of};
ghost use Rattle.schema_text.specs.Bounds.{has_few, is_flat};
ghost use Rattle.schema_text.specs.Canonical.{canonical};

use crate::bounds::{are_shallow, is_short};
use crate::types::read_types;
use crate::values::{read_static, read_value_type};
use crate::writing::write_schema;
use grammar::{Stop, read_sign, skip_spaces};
use key_types::{ByteList, NoMemory, Schema, TypeList, ValueType};
use std::alloc::Global;
use thiserror::Error;

/// Why a text is refused as one of a schema.
#[derive(Clone, Copy, Debug, PartialEq, Eq, Error)]
pub enum SchemaError {
    /// It isn't of the grammar: so many bytes are its longest prefix that begins a text of the grammar.
    #[error("bad text at {0}")]
    BadText(usize),
    /// A list has over 8 components.
    #[error("a list has too many components")]
    TooMany,
    /// Tuples are nested over 4 deep.
    #[error("tuples are nested too deep")]
    TooDeep,
    /// It has so many bytes, which is over 2,000.
    #[error("the text has {0} bytes")]
    TooLong(usize),
    /// Memory ran out.
    #[error("out of memory")]
    NoMemory,
}

/// The greatest length of a text that `read_schema` takes, in bytes.
const LONGEST: usize = 2000;

/// The greatest length of a canonical text, in bytes.
const LONGEST_CANONICAL: usize = 4000;

/// What a text of the grammar names, with lists of any length and depth.
#[derive(Drop)]
pub struct Parts {
    partition: TypeList,
    clustering: TypeList,
    value: ValueType,
    static_value: Option<ValueType>,
}

/// Types and the semicolon behind them.
fn read_closed(alloc: Global, fuel: usize, bytes: &[u8]) -> Result<(TypeList, &[u8]), Stop>
    ensures { Gives (λ x. (kinds_of x.0, x.1.now)) result (closed_at fuel bytes.now) }
{
    let (kinds, rest) = read_types(alloc, fuel, bytes)?;
    let rest = read_sign(b';', rest)?;
    Ok((kinds, rest))
}

/// The clustering types, or none, and the semicolon behind them.
fn read_clustering(alloc: Global, fuel: usize, bytes: &[u8]) -> Result<(TypeList, &[u8]), Stop>
    ensures { Gives (λ x. (kinds_of x.0, x.1.now)) result (clustering_at fuel bytes.now) }
{
    match bytes {
        [] => Err(Stop::At(0)),
        [b';', ..] => {
            let rest = read_sign(b';', bytes)?;
            Ok((TypeList::End, rest))
        }
        _ => read_closed(alloc, fuel, bytes),
    }
}

/// What a text of the grammar names, from the front of bytes.
fn read_columns(alloc: Global, fuel: usize, bytes: &[u8]) -> Result<(Parts, &[u8]), Stop>
    ensures { Gives (λ x. (columns_of_parts x.0, x.1.now)) result (columns_at fuel bytes.now) }
{
    let rest = read_sign(b'(', skip_spaces(bytes))?;
    let (partition, rest) = read_types(alloc, fuel, rest)?;
    let rest = read_sign(b';', rest)?;
    let (clustering, rest) = read_clustering(alloc, fuel, rest)?;
    let (value, rest) = read_value_type(rest)?;
    let (static_value, rest) = read_static(rest)?;
    let parts = Parts {
        partition,
        clustering,
        value,
        static_value,
    };
    Ok((parts, rest))
}

/// What a whole text of the grammar names. One more than the length of the text is fuel enough.
fn read_parts(alloc: Global, text: &[u8]) -> Result<Parts, Stop>
    ensures { Gives columns_of_parts result (whole (columns_at (length text.now + 1)) text.now) }
{
    let (parts, rest) = read_columns(alloc, text.len() + 1, text)?;
    if rest.is_empty() {
        Ok(parts)
    } else {
        Err(Stop::At(rest.len()))
    }
}

/// Whether no list has over 8 components.
fn has_few(parts: &Parts) -> bool
    ensures { result ≡ has_few (columns_of_parts parts.now) }
{
    is_short(&parts.partition) && is_short(&parts.clustering)
}

/// Whether no tuples are nested over 4 deep.
fn is_flat(parts: &Parts) -> bool
    ensures { result ≡ is_flat (columns_of_parts parts.now) }
{
    are_shallow(&parts.partition, 4) && are_shallow(&parts.clustering, 4)
}

/// The schema of these parts, or the first bound that they pass.
fn bounded(parts: Parts) -> Result<Schema, SchemaError>
    requires { AreTextColumns (columns_of_parts parts) }
    ensures { Bounded (columns_of_parts parts) result }
{
    if !has_few(&parts) {
        return Err(SchemaError::TooMany);
    }
    if !is_flat(&parts) {
        return Err(SchemaError::TooDeep);
    }
    let Parts {
        partition,
        clustering,
        value,
        static_value,
    } = parts;
    Ok(Schema {
        partition,
        clustering,
        value,
        static_value,
    })
}

/// The schema of a text of any length, or the first other refusal.
fn parse(alloc: Global, text: &[u8]) -> Result<Schema, SchemaError>
    ensures { Parses text.now result }
{
    match read_parts(alloc, text) {
        Ok(parts) => bounded(parts),
        Err(Stop::Memory) => Err(SchemaError::NoMemory),
        Err(Stop::At(left)) => Err(SchemaError::BadText(text.len() - left)),
    }
}

/// The schema of a text. Too long comes before a text that isn't of the grammar, then too many, then too deep.
pub fn read_schema(alloc: Global, text: &[u8]) -> Result<Schema, SchemaError>
    ensures { ReadsSchemaText text.now result }
{
    if text.len() > LONGEST {
        return Err(SchemaError::TooLong(text.len()));
    }
    parse(alloc, text)
}

/// Whether this is the canonical text of the schema.
fn is_canonical(alloc: Global, schema: &Schema, text: &[u8]) -> Result<bool, NoMemory>
    ensures { IfOk result (λ same. IsTrue same ↔ (text.now ≡ canonical (columns_of schema.now))) }
{
    let mut written = ByteList::new(alloc);
    write_schema(schema, &mut written)?;
    Ok(written.as_slice() == text)
}

/// None, for a text that is refused, or want of memory.
fn no_schema(error: SchemaError) -> Result<Option<Schema>, NoMemory>
    ensures { (bytes : List ℕ) → Parses bytes (Err error) → ReadsCanonical bytes result }
{
    match error {
        SchemaError::NoMemory => Err(NoMemory),
        SchemaError::BadText(_)
        | SchemaError::TooMany
        | SchemaError::TooDeep
        | SchemaError::TooLong(_) => Ok(None),
    }
}

/// The schema whose canonical text this is, where it is one of at most 4,000 bytes.
pub fn read_canonical(alloc: Global, text: &[u8]) -> Result<Option<Schema>, NoMemory>
    ensures { ReadsCanonical text.now result }
{
    if text.len() > LONGEST_CANONICAL {
        return Ok(None);
    }
    match parse(alloc, text) {
        Ok(schema) => {
            if is_canonical(alloc, &schema, text)? {
                Ok(Some(schema))
            } else {
                Ok(None)
            }
        }
        Err(error) => no_schema(error),
    }
}
