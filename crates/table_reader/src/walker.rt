//! A walk over a range of Data.db, step by step, in a window that is read ahead. A scan makes the steps: each passes
//! over something, gives an entry of the range, or says that the range ends. After an error it stands where it stood.
ghost use Rattle.std.specs.Prelude.{◌≡◌, ◌↔◌, ◌≤◌, [], false, drop, length, None, Some, IfOk, IfSome, IsNone, IsTrue};
ghost use Rattle.std.specs.Option.{option_copied};
ghost use Rattle.key_types.specs.Columns.{columns_of};
ghost use Rattle.table_reader.specs.Ranges.{order_to, within_bytes, IsAbove, IsBelow, StepIs};
ghost use Rattle.table_reader.specs.Parts.{GivesStatic, IsStaticAbove, IsStaticPartBehind, NoStaticPartBehind};
ghost use Rattle.table_reader.specs.Window.{HasEnough};

use crate::place::damaged;
use crate::seek::BoundString;
use crate::window::Window;
use bti_nodes::Cause;
use byte_order::compare_bytes;
use data_file::{DataError, ParseRow, head_in, row_in, static_part_in};
use key_types::{ByteList, KeyBytes, NoMemory, Schema, ValueBytes};
use std::alloc::Global;
use std::cmp::Ordering;

/// An entry of a table: the string of its partition, that of its row, or `None` for the partition's static value, and
/// the value.
#[derive(Debug, Drop)]
pub struct EntryStrings {
    pub partition: KeyBytes,
    pub clustering: Option<KeyBytes>,
    pub value: ValueBytes,
}

/// What a step met.
#[derive(Drop)]
pub enum Met {
    /// Something that gives no entry, or an entry below the range.
    Passed,
    /// An entry of the range.
    Given(EntryStrings),
    /// The end of the file, or something above the range.
    Done,
}

/// Where a walk stands: the bytes from there on, and the string of the partition that it is in or was in last. `from` is
/// the bound below which entries are passed over, until one is given, and `to` the bound above which the walk ends.
#[derive(Drop)]
pub struct Walker {
    pub window: Window,
    pub key: KeyBytes,
    pub inside: bool,
    pub from: Option<BoundString>,
    pub to: Option<BoundString>,
}

/// The bound string within a partition, which is empty where a bound names no clustering components.
fn within(bound: &BoundString) -> &[u8]
    ensures { result.now ≡ within_bytes bound.now.clustering }
{
    match &bound.clustering {
        Some(string) => string.as_slice(),
        None => &[],
    }
}

/// The order of the strings of an entry to those of a bound.
fn order_to(bound: &BoundString, partition: &[u8], clustering: &[u8]) -> Ordering
    ensures { result ≡ order_to bound.now partition.now clustering.now }
{
    compare_bytes(partition, bound.partition.as_slice()).then(compare_bytes(
        clustering,
        within(bound),
    ))
}

/// Whether the strings of an entry lie below a bound.
fn is_below(from: &Option<BoundString>, partition: &[u8], clustering: &[u8]) -> bool
    ensures { IsTrue result ↔ IsBelow from.now partition.now clustering.now }
{
    match from {
        Some(bound) => order_to(bound, partition, clustering) == Ordering::Less,
        None => false,
    }
}

/// Whether the strings of an entry lie above a bound.
fn is_above(to: &Option<BoundString>, partition: &[u8], clustering: &[u8]) -> bool
    ensures { IsTrue result ↔ IsAbove to.now partition.now clustering.now }
{
    match to {
        Some(bound) => order_to(bound, partition, clustering) == Ordering::Greater,
        None => false,
    }
}

/// Whether a partition has a static value whose entry lies above a bound.
fn is_static_above(to: &Option<BoundString>, partition: &[u8], static_part: Option<&[u8]>) -> bool
    ensures { IsTrue result ↔ IsStaticAbove to.now partition.now (option_copied static_part.entry) }
{
    match static_part {
        Some(_) => is_above(to, partition, &[]),
        None => false,
    }
}

/// A copy of a string, in a buffer whose bytes aren't wanted any more.
fn copied(buffer: ByteList, string: &[u8]) -> Result<ByteList, NoMemory>
    ensures { IfOk result (λ copy. copy ≡ string.now) }
{
    let mut copy = buffer;
    copy.truncate(0);
    copy.extend(string)?;
    Ok(copy)
}

/// Three buffers: those of an entry that isn't wanted any more, where there is one.
fn buffers(alloc: Global, spare: Option<EntryStrings>) -> (ByteList, ByteList, ByteList) {
    let Some(
        EntryStrings {
            partition,
            clustering,
            value,
        },
    ) = spare
    else {
        return (
            ByteList::new(alloc),
            ByteList::new(alloc),
            ByteList::new(alloc),
        );
    };
    match clustering {
        Some(within) => (partition, within, value),
        None => (partition, ByteList::new(alloc), value),
    }
}

/// The entry of a row, in the buffers of a spare one.
fn row_entry(
    alloc: Global,
    spare: Option<EntryStrings>,
    partition: &[u8],
    clustering: &[u8],
    value: &[u8],
) -> Result<EntryStrings, NoMemory>
    ensures { IfOk result (λ entry. entry
        ≡ record { partition = partition.now; clustering = Some clustering.now; value = value.now }) }
{
    let (key, within, text) = buffers(alloc, spare);
    Ok(EntryStrings {
        partition: copied(key, partition)?,
        clustering: Some(copied(within, clustering)?),
        value: copied(text, value)?,
    })
}

/// The entry of a static value.
fn static_entry(alloc: Global, partition: &[u8], value: &[u8]) -> Result<EntryStrings, NoMemory>
    ensures { IfOk result (λ entry. entry
        ≡ record { partition = partition.now; clustering = None; value = value.now }) }
{
    Ok(EntryStrings {
        partition: copied(ByteList::new(alloc), partition)?,
        clustering: None,
        value: copied(ByteList::new(alloc), value)?,
    })
}

/// The static value behind a head of so many bytes, where there is one, and the length of the static part; `None` where
/// no static part stands there. A table without a static type has none, of no bytes.
pub fn static_part_behind<'b>(
    schema: &Schema,
    bytes: &'b [u8],
    head: usize,
) -> Option<(Option<&'b [u8]>, usize)>
    requires { head ≤ length bytes.now }
    ensures some { IfSome result (λ p. IsStaticPartBehind (columns_of schema.now) (drop head bytes.now) (option_copied p.0) p.1) }
    ensures none { IsNone result → NoStaticPartBehind (columns_of schema.now) (drop head bytes.now) }
{
    if schema.static_value.is_none() {
        return Some((None, 0));
    }
    let (_, behind) = bytes.split_at(head);
    match static_part_in(schema, behind) {
        Ok(None) => Some((None, 1)),
        Ok(Some(value)) => Some((Some(value), 3 + value.len())),
        Err(_) => None,
    }
}

/// The entry of a partition's static value, where there is one that isn't below the bound.
fn static_given(
    alloc: Global,
    from: &Option<BoundString>,
    partition: &[u8],
    static_part: Option<&[u8]>,
) -> Result<Option<EntryStrings>, NoMemory>
    ensures { IfOk result (GivesStatic from.now partition.now (option_copied static_part.entry)) }
{
    let Some(value) = static_part else {
        return Ok(None);
    };
    if is_below(from, partition, &[]) {
        return Ok(None);
    }
    Ok(Some(static_entry(alloc, partition, value)?))
}

impl Walker {
    /// Goes over the head of the partition that stands next and its static part.
    fn enter(&mut self, alloc: Global, schema: &Schema) -> Result<Met, DataError>
        requires full { HasEnough self.old.window }
        requires outside { self.old.inside ≡ false }
        ensures { StepIs (columns_of schema.now) self.old self.new result }
    {
        let bytes = self.window.unread();
        if bytes.is_empty() {
            return Ok(Met::Done);
        }
        let at = self.window.at();
        let Some(key) = head_in(schema, bytes) else {
            return Err(damaged(at, Cause::BadHead));
        };
        let head = 2 + key.len();
        let Some((static_part, length)) = static_part_behind(schema, bytes, head) else {
            return Err(damaged(at + head as u64, Cause::BadRow));
        };
        if is_static_above(&self.to, key, static_part) {
            return Ok(Met::Done);
        }
        let given = static_given(alloc, &self.from, key, static_part)?;
        self.key.truncate(0);
        self.key.extend(key)?;
        self.window.pass(head + length);
        self.inside = true;
        let Some(entry) = given else {
            return Ok(Met::Passed);
        };
        self.from = None;
        Ok(Met::Given(entry))
    }

    /// Goes over the row that stands next, or over the end of the partition.
    fn go_on(
        &mut self,
        alloc: Global,
        schema: &Schema,
        spare: &mut Option<EntryStrings>,
    ) -> Result<Met, DataError>
        requires full { HasEnough self.old.window }
        requires inside { ¬ (self.old.inside ≡ false) }
        ensures { StepIs (columns_of schema.now) self.old self.new result }
    {
        let row = match row_in(schema, self.window.unread()) {
            Ok(Some(row)) => row,
            Ok(None) => {
                self.window.pass(1);
                self.inside = false;
                return Ok(Met::Passed);
            }
            Err(ParseRow::NoMemory) => return Err(DataError::NoMemory),
            Err(_) => return Err(damaged(self.window.at(), Cause::BadRow)),
        };
        let key = self.key.as_slice();
        if is_above(&self.to, key, row.clustering) {
            return Ok(Met::Done);
        }
        let count = 5 + row.clustering.len() + row.value.len();
        if is_below(&self.from, key, row.clustering) {
            self.window.pass(count);
            return Ok(Met::Passed);
        }
        let entry = row_entry(alloc, spare.take(), key, row.clustering, row.value)?;
        self.window.pass(count);
        self.from = None;
        Ok(Met::Given(entry))
    }

    /// Goes over what stands next. The entry of a row is put together in the buffers of a spare one, where there is one.
    pub fn step(
        &mut self,
        alloc: Global,
        schema: &Schema,
        spare: &mut Option<EntryStrings>,
    ) -> Result<Met, DataError>
        requires full { HasEnough self.old.window }
        ensures { StepIs (columns_of schema.now) self.old self.new result }
    {
        if self.inside {
            self.go_on(alloc, schema, spare)
        } else {
            self.enter(alloc, schema)
        }
    }
}
