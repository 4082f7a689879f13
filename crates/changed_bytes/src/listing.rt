//! What Data.db lists from its start to its end, where its keys ascend. The plain check of a table begins with it.
use crate::table::Table;
use crate::wrong::{Other, Wrong, clash_at, sound};
use std::alloc::Global;

/// A block ends with the first row that ends so many bytes or more past its start.
const BLOCK: u64 = 16_384;

/// A block but the first of its partition: how far behind the head it begins, the string of its first row, and that of
/// the row before it.
#[derive(Clone, Copy)]
pub struct Block<'f> {
    pub offset: u64,
    pub first: &'f [u8],
    pub before: &'f [u8],
}

/// A partition: its string, where its head stands, how many rows it has, and its blocks but the first.
#[derive(Drop)]
pub struct Partition<'f> {
    pub string: &'f [u8],
    pub head: u64,
    pub rows: u64,
    pub blocks: Vec<Block<'f>>,
}

fn need_above(string: &[u8], before: &[u8], at: u64) -> Result<(), Wrong> {
    if string > before {
        Ok(())
    } else {
        Err(clash_at("Data", at, Other::Order))
    }
}

/// Goes over the rows of a partition from a place on, and answers where it ends.
fn pass_rows<'f>(
    alloc: Global,
    table: &Table<'f>,
    from: u64,
    partition: &mut Partition<'f>,
) -> Result<u64, Wrong> {
    let mut begin = partition.head;
    let mut before: &'f [u8] = &[];
    let mut at = from;
    for _ in 0..table.data.len() {
        let Some(row) = sound(table.row(alloc, at))? else {
            break;
        };
        need_above(row.clustering, before, at)?;
        if !before.is_empty() && at.saturating_sub(begin) >= BLOCK {
            partition.blocks.push(Block {
                offset: at.saturating_sub(partition.head),
                first: row.clustering,
                before,
            })?;
            begin = at;
        }
        before = row.clustering;
        partition.rows = partition.rows.saturating_add(1);
        at = row.end;
    }
    Ok(at)
}

/// All partitions in order.
pub fn partitions_of<'f>(alloc: Global, table: &Table<'f>) -> Result<Vec<Partition<'f>>, Wrong> {
    let mut partitions = Vec::new(alloc);
    let mut before: &'f [u8] = &[];
    let mut at = 0u64;
    for _ in 0..table.data.len() {
        if at >= table.data.len() as u64 {
            break;
        }
        let head = sound(table.head(alloc, at))?;
        need_above(head.partition, before, at)?;
        let mut partition = Partition {
            string: head.partition,
            head: at,
            rows: 0,
            blocks: Vec::new(alloc),
        };
        let end = pass_rows(alloc, table, head.end, &mut partition)?;
        if partition.rows == 0 {
            return Err(clash_at("Data", at, Other::Order));
        }
        before = partition.string;
        at = end.saturating_add(1);
        partitions.push(partition)?;
    }
    Ok(partitions)
}

/// The value of the row with this string among those of one partition, and where they end.
fn value_among<'f>(
    alloc: Global,
    table: &Table<'f>,
    from: u64,
    key: &[u8],
) -> Result<(Option<&'f [u8]>, u64), Wrong> {
    let mut value = None;
    let mut at = from;
    for _ in 0..table.data.len() {
        let Some(row) = sound(table.row(alloc, at))? else {
            break;
        };
        if row.clustering == key {
            value = Some(row.value);
        }
        at = row.end;
    }
    Ok((value, at))
}

/// The value that Data.db lists at a key, whatever the indexes are.
pub fn listed_value<'f>(
    alloc: Global,
    table: &Table<'f>,
    partition: &[u8],
    key: &[u8],
) -> Result<Option<&'f [u8]>, Wrong> {
    let mut at = 0u64;
    for _ in 0..table.data.len() {
        if at >= table.data.len() as u64 {
            break;
        }
        let head = sound(table.head(alloc, at))?;
        let (value, end) = value_among(alloc, table, head.end, key)?;
        if head.partition == partition {
            return Ok(value);
        }
        at = end.saturating_add(1);
    }
    Ok(None)
}

/// How many rows the partitions have together.
pub fn row_count(partitions: &[Partition<'_>]) -> u64 {
    let mut rows = 0u64;
    for partition in partitions {
        rows = rows.saturating_add(partition.rows);
    }
    rows
}
