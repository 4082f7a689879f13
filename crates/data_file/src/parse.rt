//! What begins with some bytes of a data file: a head, a row or an end. The readers of files, and whoever holds a page of
//! one, call these; they take no memory but for a row that is handed out, and say the same whatever follows the bytes.
ghost use Rattle.std.specs.Prelude.{◌≡◌, ◌↔◌, ◌<◌, ◌≤◌, ◌+◌, ◌++◌, ◌^◌, List, ℕ, length, IfOk, IfSome, IsNone, MatchOption, Err, ◌∷◌};
ghost use Rattle.key_types.specs.Columns.{columns_of};
ghost use Rattle.length_prefix.specs.Counted.{stated_length};
ghost use Rattle.data_file.specs.Reading.{BeginsEnd, BeginsHead, BeginsRow, IsCutRow, IsRowAt, NoHead, NoRow};
ghost use Rattle.data_file.specs.Parsing.{IsFrame, NoFrame, counts_too_many};

use crate::reading::{DataRow, RowAt};
use crate::strings::is_row;
use byte_comparable::LONGEST_STRING;
use key_decode::is_partition_string;
use key_types::{ByteList, NoMemory, Schema};
use length_prefix::{counted, stated_length};
use std::alloc::Global;

/// Why bytes of a data file were not read as a row or an end.
#[derive(Clone, Copy, Debug, PartialEq, Eq, thiserror::Error)]
pub enum ParseRow {
    /// The lengths that stand there ask for more bytes than are given.
    #[error("the bytes are cut off")]
    Short,
    /// Whatever bytes follow, no row and no end of a partition begins here.
    #[error("neither a row nor an end of a partition")]
    Bad,
    /// Memory ran out.
    #[error("out of memory")]
    NoMemory,
}

impl From<NoMemory> for ParseRow {
    ghost use Rattle.std.specs.Prelude.{◌≡◌};
    ghost use Rattle.data_file.specs.declared.parse.ParseRow.TheVariants.{NoMemory};

    ghost from_gives = { λ _ e. e ≡ NoMemory };

    fn from(_e: NoMemory) -> ParseRow {
        ParseRow::NoMemory
    }
}

/// The string of the partition whose head the bytes begin with, where they begin with one.
pub fn head_in<'b>(schema: &Schema, bytes: &'b [u8]) -> Option<&'b [u8]>
    ensures some { IfSome result (λ key. BeginsHead (columns_of schema.now) bytes.now key.now) }
    ensures none { IsNone result → NoHead (columns_of schema.now) bytes.now }
{
    let (key, _) = counted(bytes)?;
    if !is_partition_string(schema, key) {
        return None;
    }
    Some(key)
}

/// Whether the bytes begin with a count of more than 1,024 bytes.
fn counts_too_many(bytes: &[u8]) -> bool
    ensures { result ≡ counts_too_many (stated_length bytes.now) }
{
    match stated_length(bytes) {
        Some(count) => count > LONGEST_STRING,
        None => false,
    }
}

/// The clustering and the value of a row, behind its first byte.
fn row_frame(bytes: &[u8]) -> Result<(&[u8], &[u8]), ParseRow>
    ensures row { IfOk result (λ p. IsFrame (1 ∷ bytes.now) p.0.now p.1.now) }
    ensures short { result ≡ Err ParseRow.Short ↔ IsCutRow (1 ∷ bytes.now) }
    ensures bad { result ≡ Err ParseRow.Bad → (more : List ℕ) → NoFrame (1 ∷ (bytes.now ++ more)) }
    ensures memory { ¬ (result ≡ Err ParseRow.NoMemory) }
{
    if counts_too_many(bytes) {
        return Err(ParseRow::Bad);
    }
    let Some((clustering, rest)) = counted(bytes) else {
        return Err(ParseRow::Short);
    };
    match counted(rest) {
        Some((value, _)) => Ok((clustering, value)),
        None => Err(ParseRow::Short),
    }
}

/// The clustering and the value of the row that the bytes begin with, as far as their lengths say; `None` for an end.
fn frame(bytes: &[u8]) -> Result<Option<(&[u8], &[u8])>, ParseRow>
    ensures row { IfOk result (λ found. MatchOption found (BeginsEnd bytes.now) (λ p. IsFrame bytes.now p.0.now p.1.now)) }
    ensures short { result ≡ Err ParseRow.Short ↔ IsCutRow bytes.now }
    ensures bad { result ≡ Err ParseRow.Bad → (more : List ℕ) → NoFrame (bytes.now ++ more) }
    ensures memory { ¬ (result ≡ Err ParseRow.NoMemory) }
{
    let Some((first, rest)) = bytes.split_first() else {
        return Err(ParseRow::Short);
    };
    match *first {
        0 => Ok(None),
        1 => match row_frame(rest) {
            Ok(found) => Ok(Some(found)),
            Err(e) => Err(e),
        },
        _ => Err(ParseRow::Bad),
    }
}

/// The strings of a row where its bytes stand.
#[derive(Clone, Copy, Debug)]
pub struct RowParts<'b> {
    pub clustering: &'b [u8],
    pub value: &'b [u8],
}

/// The row with which the bytes of a data file begin, behind a head or a row; `None` for the end of a partition.
/// It takes no memory.
pub fn row_in<'b>(schema: &Schema, bytes: &'b [u8]) -> Result<Option<RowParts<'b>>, ParseRow>
    ensures row { IfOk result (λ found. MatchOption found (BeginsEnd bytes.now)
        (λ row. BeginsRow (columns_of schema.now) bytes.now row.clustering.now row.value.now)) }
    ensures cut { result ≡ Err ParseRow.Short ↔ IsCutRow bytes.now }
    ensures short { result ≡ Err ParseRow.Short → NoRow (columns_of schema.now) bytes.now × (length bytes.now < 66564) }
    ensures bad { result ≡ Err ParseRow.Bad → (more : List ℕ) → NoRow (columns_of schema.now) (bytes.now ++ more) }
    ensures memory { ¬ (result ≡ Err ParseRow.NoMemory) }
{
    let found = match frame(bytes) {
        Ok(found) => found,
        Err(e) => return Err(e),
    };
    let Some((clustering, value)) = found else {
        return Ok(None);
    };
    if !is_row(schema, clustering, value) {
        return Err(ParseRow::Bad);
    }
    Ok(Some(RowParts { clustering, value }))
}

/// The row or the end of a partition with which the bytes of a data file begin, from the position `at` on.
pub fn parse_row(alloc: Global, schema: &Schema, bytes: &[u8], at: u64) -> Result<RowAt, ParseRow>
    requires place { at < 2 ^ 62 }
    ensures row { IfOk result (IsRowAt (columns_of schema.now) bytes.now at) }
    ensures cut { result ≡ Err ParseRow.Short ↔ IsCutRow bytes.now }
    ensures short { result ≡ Err ParseRow.Short → NoRow (columns_of schema.now) bytes.now × (length bytes.now < 66564) }
    ensures bad { result ≡ Err ParseRow.Bad → (more : List ℕ) → NoRow (columns_of schema.now) (bytes.now ++ more) }
{
    let found = match row_in(schema, bytes) {
        Ok(found) => found,
        Err(e) => return Err(e),
    };
    let Some(parts) = found else {
        return Ok(RowAt::End(at + 1));
    };
    let end = at + 5 + parts.clustering.len() as u64 + parts.value.len() as u64;
    Ok(RowAt::Row(data_row(alloc, parts.clustering, parts.value, end)?))
}

fn data_row(alloc: Global, clustering: &[u8], value: &[u8], end: u64) -> Result<DataRow, NoMemory>
    ensures { IfOk result (λ row. row ≡ record { clustering = clustering.now; value = value.now; end = end }) }
{
    let mut row = DataRow {
        clustering: ByteList::new(alloc),
        value: ByteList::new(alloc),
        end,
    };
    row.clustering.extend(clustering)?;
    row.value.extend(value)?;
    Ok(row)
}
