//! The bytes that are changed: each byte of the index files, and of Data.db those of heads, of the lengths and
//! clusterings of rows, and of ends.
use crate::keys::Kind;
use crate::reader_error::ReaderError;
use crate::sample::{bytes_of, table_of};
use crate::table::Table;
use outside::{MemStore, Part};
use std::alloc::Global;

/// A place of a file.
#[derive(Clone, Copy)]
pub struct Spot {
    pub part: Part,
    pub at: u64,
}

fn add(spots: &mut Vec<Spot>, part: Part, from: u64, to: u64) -> Result<(), ReaderError> {
    for at in from..to {
        spots.push(Spot { part, at })?;
    }
    Ok(())
}

/// Adds those of the rows of one partition from a place on and of its end, and answers where the next one begins.
fn add_rows(
    alloc: Global,
    table: &Table<'_>,
    from: u64,
    spots: &mut Vec<Spot>,
) -> Result<u64, ReaderError> {
    let mut at = from;
    for _ in 0..table.data.len() {
        let Ok(row) = table.row(alloc, at)? else {
            return Err(ReaderError::NotLoaded);
        };
        let Some(row) = row else {
            break;
        };
        add(
            spots,
            Part::Data,
            at,
            row.end.saturating_sub(row.value.len() as u64),
        )?;
        at = row.end;
    }
    let end = at.saturating_add(1);
    add(spots, Part::Data, at, end)?;
    Ok(end)
}

fn add_data(alloc: Global, table: &Table<'_>, spots: &mut Vec<Spot>) -> Result<(), ReaderError> {
    let mut at = 0u64;
    for _ in 0..table.data.len() {
        if at >= table.data.len() as u64 {
            break;
        }
        let Ok(head) = table.head(alloc, at)? else {
            return Err(ReaderError::NotLoaded);
        };
        add(spots, Part::Data, at, head.end)?;
        at = add_rows(alloc, table, head.end, spots)?;
    }
    Ok(())
}

/// All places of the files of a table that is whole.
pub fn spots_of(alloc: Global, store: &MemStore, kind: Kind) -> Result<Vec<Spot>, ReaderError> {
    let mut spots = Vec::new(alloc);
    for part in [Part::Partitions, Part::Rows] {
        add(&mut spots, part, 0, bytes_of(store, part)?.len() as u64)?;
    }
    add_data(alloc, &table_of(store, kind)?, &mut spots)?;
    Ok(spots)
}
