//! Static parts, in the data file of a table with a static type: what begins with some bytes behind a head. The readers of
//! files call these; they say the same whatever follows the bytes.
ghost use Rattle.std.specs.Prelude.{◌≡◌, ◌↔◌, ◌<◌, ◌+◌, ◌++◌, ◌^◌, List, ℕ, length, IfOk, IsSome, MatchOption, None, Some, Err};
ghost use Rattle.key_types.specs.Columns.{columns_of};
ghost use Rattle.data_file.specs.Reading.{BeginsStaticPart, IsCutStatic, IsStaticPartAt, NoStaticPart};
ghost use Rattle.data_file.specs.Parsing.{IsStaticPartFrame, NoStaticPartFrame};

use crate::parse::ParseRow;
use crate::reading::StaticPart;
use crate::strings::is_value;
use key_types::{ByteList, NoMemory, Schema, ValueBytes};
use length_prefix::counted;
use std::alloc::Global;

/// The static value of the static part that the bytes begin with, as far as its length says; `None` where it has none.
fn frame(bytes: &[u8]) -> Result<Option<&[u8]>, ParseRow>
    ensures part { IfOk result (λ found. MatchOption found (IsStaticPartFrame bytes.now None) (λ value. IsStaticPartFrame bytes.now (Some value.now))) }
    ensures short { result ≡ Err ParseRow.Short ↔ IsCutStatic bytes.now }
    ensures bad { result ≡ Err ParseRow.Bad → (more : List ℕ) → NoStaticPartFrame (bytes.now ++ more) }
    ensures memory { ¬ (result ≡ Err ParseRow.NoMemory) }
{
    match bytes {
        [] => Err(ParseRow::Short),
        [0, ..] => Ok(None),
        [1, rest @ ..] => match counted(rest) {
            Some((value, _)) => Ok(Some(value)),
            None => Err(ParseRow::Short),
        },
        _ => Err(ParseRow::Bad),
    }
}

/// The static value of the static part with which the bytes of a data file begin, behind a head; `None` where it has
/// none. It takes no memory.
pub fn static_part_in<'b>(schema: &Schema, bytes: &'b [u8]) -> Result<Option<&'b [u8]>, ParseRow>
    requires { IsSome schema.now.static_value }
    ensures part { IfOk result (λ found. MatchOption found (BeginsStaticPart (columns_of schema.now) bytes.now None)
        (λ value. BeginsStaticPart (columns_of schema.now) bytes.now (Some value.now))) }
    ensures cut { result ≡ Err ParseRow.Short ↔ IsCutStatic bytes.now }
    ensures short { result ≡ Err ParseRow.Short → NoStaticPart (columns_of schema.now) bytes.now × (length bytes.now < 65538) }
    ensures bad { result ≡ Err ParseRow.Bad → (more : List ℕ) → NoStaticPart (columns_of schema.now) (bytes.now ++ more) }
    ensures memory { ¬ (result ≡ Err ParseRow.NoMemory) }
{
    let found = match frame(bytes) {
        Ok(found) => found,
        Err(e) => return Err(e),
    };
    match (schema.static_value, found) {
        (Some(kind), Some(value)) if !is_value(kind, value) => Err(ParseRow::Bad),
        _ => Ok(found),
    }
}

/// The static part with which the bytes of a data file begin, from the position `at` on.
pub fn parse_static_part(
    alloc: Global,
    schema: &Schema,
    bytes: &[u8],
    at: u64,
) -> Result<StaticPart, ParseRow>
    requires static_part { IsSome schema.now.static_value }
    requires place { at < 2 ^ 62 }
    ensures part { IfOk result (IsStaticPartAt (columns_of schema.now) bytes.now at) }
    ensures cut { result ≡ Err ParseRow.Short ↔ IsCutStatic bytes.now }
    ensures short { result ≡ Err ParseRow.Short → NoStaticPart (columns_of schema.now) bytes.now × (length bytes.now < 65538) }
    ensures bad { result ≡ Err ParseRow.Bad → (more : List ℕ) → NoStaticPart (columns_of schema.now) (bytes.now ++ more) }
{
    match static_part_in(schema, bytes) {
        Ok(None) => Ok(StaticPart {
            value: None,
            end: at + 1,
        }),
        Ok(Some(value)) => Ok(static_part_of(alloc, value, at + 3 + value.len() as u64)?),
        Err(e) => Err(e),
    }
}

fn static_part_of(alloc: Global, value: &[u8], end: u64) -> Result<StaticPart, NoMemory>
    ensures { IfOk result (λ static_part. static_part ≡ record { value = Some value.now; end = end }) }
{
    let mut bytes: ValueBytes = ByteList::new(alloc);
    bytes.extend(value)?;
    Ok(StaticPart {
        value: Some(bytes),
        end,
    })
}
