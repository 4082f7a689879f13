//! Heads, static parts and rows at a place of a file, read in pages of 4,096 bytes, each of which is one read of the store.
ghost use Rattle.std.specs.Prelude.{◌≡◌, ◌<◌, ◌≤◌, ◌+◌, ◌^◌, length, drop, ◌++◌, IfErr, IfOk, IfSome, IsNone, IsSome, IsTrue, ◌⊎◌, Err, List, ℕ};
ghost use Rattle.outside.specs.Causes.{Rose};
ghost use Rattle.outside.specs.Files.{bytes_of};
ghost use Rattle.key_types.specs.Columns.{columns_of};
ghost use Rattle.data_file.specs.Answers.{damage_at, IsHead, IsRowOrEnd, IsStaticPart, IsStop};
ghost use Rattle.data_file.specs.Held.{IsFront, IsRest};

use crate::parse::{ParseRow, head_in, parse_row};
use crate::static_part::parse_static_part;
use bti_nodes::{Cause, Damage};
use key_types::{ByteList, KeyBytes, NoMemory, Schema, ValueBytes};
use outside::{Failed, FileId, PAGE, Part, Store};
use std::alloc::Global;

/// The head of a partition: its string, and the place behind the head, where its static part begins or its rows do.
#[derive(Debug, Drop)]
pub struct Head {
    pub partition: KeyBytes,
    pub rows_at: u64,
}

/// A row: the string of its clustering components, its value, and the place behind it.
#[derive(Debug, Drop)]
pub struct DataRow {
    pub clustering: KeyBytes,
    pub value: ValueBytes,
    pub end: u64,
}

/// A static part: its value, where it has one, and the place behind it.
#[derive(Debug, Drop)]
pub struct StaticPart {
    pub value: Option<ValueBytes>,
    pub end: u64,
}

/// What stands at a place behind a head: a row, or the end of the partition with the place behind it.
#[derive(Debug, Drop)]
pub enum RowAt {
    Row(DataRow),
    End(u64),
}

/// Why a data file was not read.
#[derive(Clone, Copy, Debug, PartialEq, Eq, thiserror::Error)]
pub enum DataError {
    /// The store failed.
    #[error("the store failed")]
    StoreFault,
    /// The file is not one of a table.
    #[error("the data file is damaged")]
    Damaged(Damage),
    /// Memory ran out.
    #[error("out of memory")]
    NoMemory,
}

impl From<Failed> for DataError {
    ghost use Rattle.std.specs.Prelude.{◌≡◌};
    ghost use Rattle.data_file.specs.declared.reading.DataError.TheVariants.{StoreFault};

    ghost from_gives = { λ _ e. e ≡ StoreFault };

    fn from(_e: Failed) -> DataError {
        DataError::StoreFault
    }
}

impl From<NoMemory> for DataError {
    ghost use Rattle.std.specs.Prelude.{◌≡◌};
    ghost use Rattle.data_file.specs.declared.reading.DataError.TheVariants.{NoMemory};

    ghost from_gives = { λ _ e. e ≡ NoMemory };

    fn from(_e: NoMemory) -> DataError {
        DataError::NoMemory
    }
}

/// Puts the next 4,096 bytes of the file behind those that are held from `at` on, and answers whether the file ended.
fn read_more<K: Store>(
    file: FileId,
    at: u64,
    held: &mut ByteList,
    store: &mut K,
) -> Result<bool, DataError>
    requires place { at + length held.old < 2 ^ 63 }
    requires front { IsFront (K.files store.old) file at held.old }
    ensures front { IsFront (K.files store.new) file at held.new }
    ensures grown { IfOk result (λ ended. IsTrue ended ⊎ (length held.new ≡ length held.old + 4096)) }
    ensures page { length held.new ≤ length held.old + 4096 }
    ensures ended { IfOk result (λ ended. IsTrue ended → IsRest (K.files store.new) file at held.new) }
    ensures files { K.files store.new ≡ K.files store.old }
    ensures stops { IfErr result IsStop }
    ensures reads { K.reads store.new ≤ K.reads store.old + 1 }
    ensures later { K.faults store.old ≤ K.faults store.new }
    ensures fault { result ≡ Err DataError.StoreFault → Rose (K.faults store.old) (K.faults store.new) }
{
    let mut page = [0u8; PAGE];
    let count = store.read(file, at + held.len() as u64, &mut page)?;
    held.extend(&page[..count])?;
    Ok(count < PAGE)
}

fn damaged(at: u64, cause: Cause) -> DataError
    ensures { result ≡ DataError.Damaged (damage_at at cause) }
{
    DataError::Damaged(Damage {
        part: Part::Data,
        position: at,
        cause,
    })
}

/// The head of the partition at a position of the file. Damage is told exactly where no head begins there.
pub fn read_partition_head<K: Store>(
    alloc: Global,
    schema: &Schema,
    file: FileId,
    at: u64,
    store: &mut K,
) -> Result<Head, DataError>
    requires place { at < 2 ^ 62 }
    ensures head { IfSome (K.files store.old) (λ m. IsHead (columns_of schema.now) (drop at (bytes_of m file)) at result) }
    ensures files { K.files store.new ≡ K.files store.old }
    ensures reads { K.reads store.new ≤ K.reads store.old + 2 }
    ensures later { K.faults store.old ≤ K.faults store.new }
    ensures fault { result ≡ Err DataError.StoreFault → Rose (K.faults store.old) (K.faults store.new) }
{
    let mut held = ByteList::new(alloc);
    read_more(file, at, &mut held, store)?;
    head_of(alloc, schema, held.as_slice(), at)
}

/// The head with which the bytes begin.
fn head_of(alloc: Global, schema: &Schema, bytes: &[u8], at: u64) -> Result<Head, DataError>
    requires place { at < 2 ^ 62 }
    ensures told { IsHead (columns_of schema.now) bytes.now at result }
    ensures fault { ¬ (result ≡ Err DataError.StoreFault) }
{
    let Some(key) = head_in(schema, bytes) else {
        return Err(damaged(at, Cause::BadHead));
    };
    let rows_at = at + 2 + key.len() as u64;
    let mut partition = ByteList::new(alloc);
    partition.extend(key)?;
    Ok(Head { partition, rows_at })
}

/// What the bytes tell of the row or the end with which they and whatever follows them begin; `None` where they
/// are too few.
fn early(alloc: Global, schema: &Schema, bytes: &[u8], at: u64) -> Option<Result<RowAt, DataError>>
    requires place { at < 2 ^ 62 }
    ensures told { IfSome result (λ found. (rest : List ℕ) → IsRowOrEnd (columns_of schema.now) (bytes.now ++ rest) at found) }
    ensures fault { IfSome result (λ found. ¬ (found ≡ Err DataError.StoreFault)) }
    ensures few { IsNone result → length bytes.now < 66564 }
{
    match parse_row(alloc, schema, bytes, at) {
        Ok(row) => Some(Ok(row)),
        Err(ParseRow::Short) => None,
        Err(ParseRow::Bad) => Some(Err(damaged(at, Cause::BadRow))),
        Err(ParseRow::NoMemory) => Some(Err(DataError::NoMemory)),
    }
}

/// What the bytes tell, where nothing follows them.
fn late(alloc: Global, schema: &Schema, bytes: &[u8], at: u64) -> Result<RowAt, DataError>
    requires place { at < 2 ^ 62 }
    ensures told { IsRowOrEnd (columns_of schema.now) bytes.now at result }
    ensures fault { ¬ (result ≡ Err DataError.StoreFault) }
{
    match parse_row(alloc, schema, bytes, at) {
        Ok(row) => Ok(row),
        Err(ParseRow::Short) => Err(damaged(at, Cause::BadRow)),
        Err(ParseRow::Bad) => Err(damaged(at, Cause::BadRow)),
        Err(ParseRow::NoMemory) => Err(DataError::NoMemory),
    }
}

/// The row or the end at a position of the file. Damage is told exactly where neither begins there.
pub fn read_row<K: Store>(
    alloc: Global,
    schema: &Schema,
    file: FileId,
    at: u64,
    store: &mut K,
) -> Result<RowAt, DataError>
    requires place { at < 2 ^ 62 }
    ensures row { IfSome (K.files store.old) (λ m. IsRowOrEnd (columns_of schema.now) (drop at (bytes_of m file)) at result) }
    ensures files { K.files store.new ≡ K.files store.old }
    ensures reads { K.reads store.new ≤ K.reads store.old + 18 }
    ensures later { K.faults store.old ≤ K.faults store.new }
    ensures fault { result ≡ Err DataError.StoreFault → Rose (K.faults store.old) (K.faults store.new) }
{
    let mut held = ByteList::new(alloc);
    let mut ended = false;
    'pages: while !ended {
        if let Some(found) = early(alloc, schema, held.as_slice(), at) {
            return found;
        }
        ended = read_more(file, at, &mut held, store)?;
    }
    late(alloc, schema, held.as_slice(), at)
}

/// What the bytes tell of the static part with which they and whatever follows them begin; `None` where they are too
/// few.
fn early_static_part(
    alloc: Global,
    schema: &Schema,
    bytes: &[u8],
    at: u64,
) -> Option<Result<StaticPart, DataError>>
    requires static_part { IsSome schema.now.static_value }
    requires place { at < 2 ^ 62 }
    ensures told { IfSome result (λ found. (rest : List ℕ) → IsStaticPart (columns_of schema.now) (bytes.now ++ rest) at found) }
    ensures fault { IfSome result (λ found. ¬ (found ≡ Err DataError.StoreFault)) }
    ensures few { IsNone result → length bytes.now < 65538 }
{
    match parse_static_part(alloc, schema, bytes, at) {
        Ok(static_part) => Some(Ok(static_part)),
        Err(ParseRow::Short) => None,
        Err(ParseRow::Bad) => Some(Err(damaged(at, Cause::BadRow))),
        Err(ParseRow::NoMemory) => Some(Err(DataError::NoMemory)),
    }
}

/// What the bytes tell of it, where nothing follows them.
fn late_static_part(
    alloc: Global,
    schema: &Schema,
    bytes: &[u8],
    at: u64,
) -> Result<StaticPart, DataError>
    requires static_part { IsSome schema.now.static_value }
    requires place { at < 2 ^ 62 }
    ensures told { IsStaticPart (columns_of schema.now) bytes.now at result }
    ensures fault { ¬ (result ≡ Err DataError.StoreFault) }
{
    match parse_static_part(alloc, schema, bytes, at) {
        Ok(static_part) => Ok(static_part),
        Err(ParseRow::Short) => Err(damaged(at, Cause::BadRow)),
        Err(ParseRow::Bad) => Err(damaged(at, Cause::BadRow)),
        Err(ParseRow::NoMemory) => Err(DataError::NoMemory),
    }
}

/// The static part at a position of the file, in a table with a static type. Damage is told exactly where none begins
/// there.
pub fn read_static_part<K: Store>(
    alloc: Global,
    schema: &Schema,
    file: FileId,
    at: u64,
    store: &mut K,
) -> Result<StaticPart, DataError>
    requires static_part { IsSome schema.now.static_value }
    requires place { at < 2 ^ 62 }
    ensures part { IfSome (K.files store.old) (λ m. IsStaticPart (columns_of schema.now) (drop at (bytes_of m file)) at result) }
    ensures files { K.files store.new ≡ K.files store.old }
    ensures reads { K.reads store.new ≤ K.reads store.old + 18 }
    ensures later { K.faults store.old ≤ K.faults store.new }
    ensures fault { result ≡ Err DataError.StoreFault → Rose (K.faults store.old) (K.faults store.new) }
{
    let mut held = ByteList::new(alloc);
    let mut ended = false;
    'pages: while !ended {
        if let Some(found) = early_static_part(alloc, schema, held.as_slice(), at) {
            return found;
        }
        ended = read_more(file, at, &mut held, store)?;
    }
    late_static_part(alloc, schema, held.as_slice(), at)
}
